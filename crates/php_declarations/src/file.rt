// The statements of a file, whose functions are declared at its entry.

ghost use Rattle.std.specs.Prelude.{◌≡◌, false, IfOk, MatchOption};
ghost use Rattle.php_tree.specs.Renamed.{renamed_function};
ghost use Rattle.php_tree.specs.Statements as tree;
ghost use Rattle.php_tree.specs.Statements.{Statements};
ghost use Rattle.php_tree.specs.StatementOf.{function_of};
ghost use Rattle.php_tree.specs.Parts.{emptied};
ghost use Rattle.php_world.specs.Naming.{Naming};
ghost use Rattle.php_callees.specs.Names.{declared_in};
ghost use Rattle.php_meaning.specs.Statements as statements;
ghost use Rattle.php_meaning.specs.World.{World, Name};
ghost use Rattle.php_rest.specs.Laws.{Steps};
ghost use Rattle.php_rest.specs.Named.{block_named, stmt_named};
ghost use Rattle.php_rest.specs.Tails.{left_in};
ghost use Rattle.php_declarations.specs.Ends.{unless_refused, with_functions};
ghost use Rattle.php_declarations.specs.Nodes.{is_function};

use backward_list::Backward;
use php_callees::declare;
use php_rest::{Ending, Frame, Function, Now, StmtFrame, Tail};
use php_tables::Functions;
use php_tree::decl::FunDecl;
use php_tree::stmt::Stmt;
use sqlite_items::{Boxed, Items};
use std::alloc::{AllocError, Global};

// The function that a statement declares, and its line.
fn function_in<'a>(x: &'a Stmt) -> Option<(&'a Boxed<FunDecl>, u32)>
    ensures { (t : Naming) → MatchOption result (is_function (stmt_named t x.now) ≡ false) (λ p. stmt_named t x.now ≡ tree.function (emptied (renamed_function t.name (function_of p.0.now))) p.1) }
{
    match x {
        Stmt::Function(declaration, line) => Some((declaration, *line)),
        Stmt::Inline(_, _) => None,
        Stmt::Echo(_, _) => None,
        Stmt::Expr(_, _) => None,
        Stmt::Empty(_) => None,
        Stmt::Block(_, _) => None,
        Stmt::If(_, _, _) => None,
        Stmt::While(_, _, _) => None,
        Stmt::Do(_, _, _) => None,
        Stmt::For(_, _, _, _, _) => None,
        Stmt::Foreach(_, _, _, _, _) => None,
        Stmt::Switch(_, _, _) => None,
        Stmt::Break(_, _) => None,
        Stmt::Continue(_, _) => None,
        Stmt::Return(_, _) => None,
        Stmt::Global(_, _) => None,
        Stmt::Static(_, _) => None,
        Stmt::Unset(_, _) => None,
        Stmt::Throw(_, _) => None,
        Stmt::Try(_, _, _) => None,
        Stmt::Class(_, _) => None,
        Stmt::Const(_, _) => None,
        Stmt::Removed(_, _, _, _) => None,
    }
}

/// The statements of a file. Nothing waits for its last one.
pub fn begin_file_block<'a>(
    tail: Tail<'a, Stmt>,
    stack: &mut Backward<Frame<'a>>,
) -> Result<Now<'a>, AllocError>
    ensures { IfOk result (Steps stack.old stack.new (λ t. statements.file_statements (block_named t (left_in tail.entry)))) }
{
    let Some((first, more)) = tail.cut() else {
        return Ok(Now::End(Ending::Normal));
    };
    if function_in(first).is_some() {
        return Ok(Now::PassBy(more));
    }
    if more.is_empty() {
        return Ok(Now::Run(first));
    }
    stack.push(Frame::OfStmt(StmtFrame::ThenOfFile(more)))?;
    Ok(Now::Run(first))
}

// Declares the function of a statement, if it is one. Answers its line where its name is taken.
fn hoist_next<'a>(
    alloc: Global,
    path: &'a Items<u8>,
    x: &'a Stmt,
    functions: &mut Functions<'a>,
) -> Result<Option<u32>, AllocError>
    ensures { IfOk result (λ o. (t : Naming) (more : Statements Name) (w : World) →
        unless_refused o (statements.hoist path.now more (with_functions (declared_in t functions.new) w)) ≡ statements.hoist path.now (tree.statement (stmt_named t x.now) more) (with_functions (declared_in t functions.old) w)) }
{
    let Some((declaration, line)) = function_in(x) else {
        return Ok(None);
    };
    if declare(alloc, functions, Function { path, declaration })? {
        return Ok(None);
    }
    Ok(Some(line))
}

/// Declares the functions that stand directly in a file, in their order. Answers the line of the first one whose name is taken.
pub fn hoist<'a>(
    alloc: Global,
    path: &'a Items<u8>,
    file: &'a [Stmt],
    functions: &mut Functions<'a>,
) -> Result<Option<u32>, AllocError>
    ensures { IfOk result (λ o. (t : Naming) (w : World) →
        unless_refused o (statements.hoisted (with_functions (declared_in t functions.new) w)) ≡ statements.hoist path.now (block_named t file.now) (with_functions (declared_in t functions.old) w)) }
{
    for x in file {
        if let Some(line) = hoist_next(alloc, path, x, functions)? {
            return Ok(Some(line));
        }
    }
    Ok(None)
}
