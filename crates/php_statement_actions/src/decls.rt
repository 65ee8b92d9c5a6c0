//! Functions, constants and `static`.
#![tactic(auto, using(php_tree::proofs::Expressions::expressions, php_tree::proofs::Statements::statements), unfolding(php_grammar::specs::Act::act, php_grammar::specs::Grammar::production))]

ghost use Rattle.std.specs.Prelude.{◌≡◌, OnOk};
ghost use Rattle.php_grammar.specs.declared.part.Rule.TheVariants as g;
ghost use Rattle.php_pieces.specs.Pieces.{values_of};
ghost use Rattle.php_pieces.specs.Stacks.{reduced};
ghost use Rattle.std.specs.Prelude.{◌∷◌, map, IfOk};
ghost use Rattle.std.specs.Option.{option_copied};
ghost use Rattle.php_grammar.specs.Act as spec;
ghost use Rattle.php_grammar.specs.Values.{as_token, as_expr, as_maybe, as_constants, as_statics};
ghost use Rattle.php_pieces.specs.Pieces.{value_of};
ghost use Rattle.php_pieces.specs.Stacks.{top, under};
ghost use Rattle.php_popped.specs.Tokens.{seen};
ghost use Rattle.php_tree.specs.StatementOf.{statement_of, constant_of, static_of};

use backward_list::Backward;
use php_building::operator::begun_expr;
use php_grammar::lexeme::Lexeme;
use php_pieces::piece::Piece;
use php_pieces::stack::{Stack, pop, push, skip};
use php_popped::lists::{pop_constants, pop_params, pop_statics, pop_stmts};
use php_popped::parts::{pop_hint, pop_maybe, pop_token};
use php_popped::pop::{pop_boxed, pop_const_name, pop_fun_name, pop_line, pop_number};
use php_popped::token::{line_of, span_of, text_of};
use php_tree::decl::FunDecl;
use php_tree::stmt::{ConstDecl, StaticVar, Stmt};
use sqlite_items::{Boxed, Items};
use std::alloc::{AllocError, Global};

/// A function.
pub fn function(alloc: Global, stack: &mut Stack<'_>) -> Result<(), AllocError>
    ensures { OnOk result (values_of stack.new ≡ reduced g.FunctionStmt (values_of stack.old)) }
{
    let last = pop_token(stack);
    let stmts = pop_stmts(alloc, stack);
    let first = pop_token(stack);
    let hint = pop_hint(stack);
    skip(stack);
    let params = pop_params(alloc, stack);
    skip(stack);
    let name = pop_fun_name(alloc, stack)?;
    let line = pop_line(stack);
    let decl = FunDecl {
        name,
        params: params.into_items(),
        result: hint,
        body: stmts.into_items(),
        body_span: span_of(first, last),
        line,
    };
    let decl = Boxed::new(alloc, decl)?;
    push(stack, Piece::Stmt(Stmt::Function(decl, line)))?;
    Ok(())
}

/// `const` with its constants.
pub fn const_of(alloc: Global, stack: &mut Stack<'_>) -> Result<(), AllocError>
    ensures { OnOk result (values_of stack.new ≡ reduced g.ConstStmt (values_of stack.old)) }
{
    skip(stack);
    let constants = pop_more_constants(alloc, stack)?;
    let line = pop_line(stack);
    push(
        stack,
        Piece::Stmt(Stmt::Const(constants.into_items(), line)),
    )?;
    Ok(())
}

/// A further constant.
pub fn next_const(alloc: Global, stack: &mut Stack<'_>) -> Result<(), AllocError>
    ensures { OnOk result (values_of stack.new ≡ reduced g.NextConst (values_of stack.old)) }
{
    let constants = pop_more_constants(alloc, stack)?;
    skip(stack);
    push(stack, Piece::Constants(constants))?;
    Ok(())
}

/// Constants, and the one before them in front of them.
fn pop_more_constants(
    alloc: Global,
    stack: &mut Stack<'_>,
) -> Result<Backward<ConstDecl>, AllocError>
    ensures value { IfOk result (λ constants. map constant_of constants
        ≡ (spec.const_name (as_token (top (under (under (under (values_of stack.old)))))), as_expr (top (under (values_of stack.old)))) ∷ as_constants (top (values_of stack.old))) }
    ensures rest { IfOk result (λ _. values_of stack.new ≡ under (under (under (under (values_of stack.old))))) }
{
    let mut constants = pop_constants(alloc, stack);
    let value = pop_boxed(alloc, stack)?;
    skip(stack);
    let name = pop_const_name(alloc, stack)?;
    constants.push(ConstDecl { name, value })?;
    Ok(constants)
}

/// The variables of a `static` statement.
pub fn static_vars(alloc: Global, stack: &mut Stack<'_>) -> Result<(), AllocError>
    ensures { OnOk result (values_of stack.new ≡ reduced g.StaticVars (values_of stack.old)) }
{
    skip(stack);
    let statics = pop_more_statics(alloc, stack)?;
    push(stack, Piece::Statics(statics))?;
    Ok(())
}

/// A further variable of a `static` statement.
pub fn next_static(alloc: Global, stack: &mut Stack<'_>) -> Result<(), AllocError>
    ensures { OnOk result (values_of stack.new ≡ reduced g.NextStatic (values_of stack.old)) }
{
    let statics = pop_more_statics(alloc, stack)?;
    skip(stack);
    push(stack, Piece::Statics(statics))?;
    Ok(())
}

/// Variables of a `static` statement, and the one before them in front of them.
fn pop_more_statics(alloc: Global, stack: &mut Stack<'_>) -> Result<Backward<StaticVar>, AllocError>
    ensures value { IfOk result (λ statics. map static_of statics
        ≡ ((as_token (top (under (under (values_of stack.old))))).number, as_maybe (top (under (values_of stack.old)))) ∷ as_statics (top (values_of stack.old))) }
    ensures rest { IfOk result (λ _. values_of stack.new ≡ under (under (under (values_of stack.old)))) }
{
    let mut statics = pop_statics(alloc, stack);
    let default = pop_maybe(stack);
    let variable = pop_number(stack);
    statics.push(StaticVar { variable, default })?;
    Ok(statics)
}

/// A `static` statement: variables, or an expression that begins with the class.
pub fn static_of(alloc: Global, stack: &mut Stack<'_>) -> Result<(), AllocError>
    ensures { OnOk result (values_of stack.new ≡ reduced g.StaticStmt (values_of stack.old)) }
{
    let rest = pop(stack);
    let token = pop_token(stack);
    let stmt = static_stmt(alloc, token, rest)?;
    push(stack, Piece::Stmt(stmt))?;
    Ok(())
}

fn static_stmt(
    alloc: Global,
    token: Option<&Lexeme<'_>>,
    rest: Piece<'_>,
) -> Result<Stmt, AllocError>
    ensures { IfOk result (λ stmt. statement_of stmt
        ≡ spec.static_statement (seen (option_copied token.entry)).text (seen (option_copied token.entry)).line (value_of rest.entry)) }
{
    let line = line_of(token);
    match rest {
        Piece::Begun(tail, joins) => {
            let text = match text_of(alloc, token) {
                Ok(text) => text,
                Err(err) => {
                    drop(tail);
                    drop(joins);
                    return Err(err);
                }
            };
            let expr = begun_expr(alloc, text, line, tail, joins)?;
            let expr = Boxed::new(alloc, expr)?;
            Ok(Stmt::Expr(expr, line))
        }
        Piece::Statics(statics) => Ok(Stmt::Static(statics.into_items(), line)),
        other => {
            drop(other);
            Ok(Stmt::Static(Items::new(alloc), line))
        }
    }
}
