// Statements that declare something, after their ticks.

ghost use Rattle.std.specs.Prelude.{◌≡◌, map, true, IfOk};
ghost use Rattle.php_tree.specs.Renamed.{renamed_constants, renamed_function, renamed_statics};
ghost use Rattle.php_tree.specs.Statements as tree;
ghost use Rattle.php_tree.specs.StatementOf.{constant_of, function_of, statement_of, static_of};
ghost use Rattle.php_tree.specs.Parts.{emptied};
ghost use Rattle.php_world.specs.Naming.{Naming};
ghost use Rattle.php_meaning.specs.Course.{Normal, hand};
ghost use Rattle.php_meaning.specs.Statements as statements;
ghost use Rattle.php_rest.specs.Named.{stmt_named};
ghost use Rattle.php_rest.specs.Rest.{next_of};
ghost use Rattle.php_state.specs.Fits.{Keeps};
ghost use Rattle.php_declarations.specs.Ends.{unless_fatal};
ghost use Rattle.php_declarations.specs.Laws.{DeclaresAfterTick};
ghost use Rattle.php_declarations.specs.Nodes as spec;

use crate::consts::add_constants;
use crate::statics::{bind_statics, file_of};
use php_callees::declare;
use php_meaning::FatalName;
use php_rest::{Ending, Function, Now};
use php_state::State;
use php_statement_steps::stand_at;
use php_tree::decl::FunDecl;
use php_tree::stmt::{ConstDecl, StaticVar, Stmt};
use sqlite_items::{Boxed, Items};
use std::alloc::{AllocError, Global};

// What comes behind declarations.
fn behind<'a>(end: Option<FatalName>) -> Now<'a>
    ensures { (t : Naming) → next_of t result ≡ unless_fatal end (hand Normal) }
{
    match end {
        None => Now::End(Ending::Normal),
        Some(why) => Now::Fail(why),
    }
}

// `const`.
fn constants_at<'a>(
    alloc: Global,
    declared: &'a Items<ConstDecl>,
    line: u32,
    state: &mut State<'a>,
) -> Result<Now<'a>, AllocError>
    ensures keeps { IfOk result (λ _. Keeps state.old state.new) }
    ensures law { IfOk result (DeclaresAfterTick state.old state.new (λ t. statements.statement (tree.constants (renamed_constants t.name (map constant_of declared.now)) line))) }
{
    stand_at(&mut state.scene, line);
    let path = file_of(state.scene.owner).as_slice();
    let end = add_constants(alloc, declared.as_slice(), path, &mut state.constants)?;
    Ok(behind(end))
}

// `static`.
fn statics_at<'a>(
    alloc: Global,
    variables: &'a Items<StaticVar>,
    line: u32,
    state: &mut State<'a>,
) -> Result<Now<'a>, AllocError>
    ensures keeps { IfOk result (λ _. Keeps state.old state.new) }
    ensures law { IfOk result (DeclaresAfterTick state.old state.new (λ t. statements.statement (tree.static_vars (renamed_statics t.name (map static_of variables.now)) line))) }
{
    stand_at(&mut state.scene, line);
    let end = bind_statics(alloc, variables.as_slice(), state)?;
    Ok(behind(end))
}

// A function that does not stand directly in a file.
fn function_at<'a>(
    alloc: Global,
    declaration: &'a Boxed<FunDecl>,
    line: u32,
    state: &mut State<'a>,
) -> Result<Now<'a>, AllocError>
    ensures keeps { IfOk result (λ _. Keeps state.old state.new) }
    ensures law { IfOk result (DeclaresAfterTick state.old state.new (λ t. statements.statement (tree.function (emptied (renamed_function t.name (function_of declaration.now))) line))) }
{
    stand_at(&mut state.scene, line);
    let path = file_of(state.scene.owner);
    let function = Function { path, declaration };
    if declare(alloc, &mut state.functions, function)? {
        return Ok(Now::End(Ending::Normal));
    }
    Ok(Now::Fail(FatalName::Redeclared))
}

/// Whether a statement declares something: `static`, `const` and a function.
#[tactic(auto, using(php_tree::proofs::Statements::statements))]
pub fn is_declaration(x: &Stmt) -> bool
    ensures { result ≡ spec.is_declaration (statement_of x.now) }
{
    match x {
        Stmt::Static(_, _) => true,
        Stmt::Const(_, _) => true,
        Stmt::Function(_, _) => true,
        Stmt::Inline(_, _) => false,
        Stmt::Echo(_, _) => false,
        Stmt::Expr(_, _) => false,
        Stmt::Empty(_) => false,
        Stmt::Block(_, _) => false,
        Stmt::If(_, _, _) => false,
        Stmt::While(_, _, _) => false,
        Stmt::Do(_, _, _) => false,
        Stmt::For(_, _, _, _, _) => false,
        Stmt::Foreach(_, _, _, _, _) => false,
        Stmt::Switch(_, _, _) => false,
        Stmt::Break(_, _) => false,
        Stmt::Continue(_, _) => false,
        Stmt::Return(_, _) => false,
        Stmt::Global(_, _) => false,
        Stmt::Unset(_, _) => false,
        Stmt::Throw(_, _) => false,
        Stmt::Try(_, _, _) => false,
        Stmt::Class(_, _) => false,
        Stmt::Removed(_, _, _, _) => false,
    }
}

/// A `static`, a `const` or a function, after its tick. After an error nothing is said of the state.
pub fn own_declaration<'a>(
    alloc: Global,
    x: &'a Stmt,
    state: &mut State<'a>,
) -> Result<Now<'a>, AllocError>
    requires { spec.is_declaration (statement_of x.now) ≡ true }
    ensures keeps { IfOk result (λ _. Keeps state.old state.new) }
    ensures law { IfOk result (DeclaresAfterTick state.old state.new (λ t. statements.statement (stmt_named t x.now))) }
{
    match x {
        Stmt::Static(variables, line) => {
            let now = statics_at(alloc, variables, *line, state)?;
            Ok(now)
        }
        Stmt::Const(declared, line) => {
            let now = constants_at(alloc, declared, *line, state)?;
            Ok(now)
        }
        Stmt::Function(declaration, line) => {
            let now = function_at(alloc, declaration, *line, state)?;
            Ok(now)
        }
        _ => Ok(Now::Run(x)),
    }
}
