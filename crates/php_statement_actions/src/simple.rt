//! Statements that hold no statements.
#![tactic(auto, using(php_tree::proofs::Expressions::expressions, php_tree::proofs::Statements::statements), unfolding(php_grammar::specs::Act::act, php_grammar::specs::Grammar::production))]

ghost use Rattle.std.specs.Prelude.{◌≡◌, OnOk};
ghost use Rattle.php_grammar.specs.declared.part.Rule.TheVariants as g;
ghost use Rattle.php_pieces.specs.Pieces.{values_of};
ghost use Rattle.php_pieces.specs.Stacks.{reduced};

use php_grammar::token::Detail;
use php_pieces::piece::Piece;
use php_pieces::stack::{Stack, push, skip};
use php_popped::lists::{pop_stmts, pop_vars};
use php_popped::parts::{pop_expr, pop_int, pop_maybe, pop_stmt, pop_text, pop_token};
use php_popped::pop::{pop_boxed, pop_bytes, pop_line, pop_more_exprs, pop_number};
use php_popped::token::{detail_of, int_of, line_of, text_of};
use php_tree::stmt::Stmt;
use sqlite_items::Boxed;
use std::alloc::{AllocError, Global};

/// The statements of a file.
pub fn whole(alloc: Global, stack: &mut Stack<'_>) -> Result<(), AllocError>
    ensures { OnOk result (values_of stack.new ≡ reduced g.Whole (values_of stack.old)) }
{
    skip(stack);
    let stmts = pop_stmts(alloc, stack);
    push(stack, Piece::Stmts(stmts))?;
    Ok(())
}

/// A statement before others.
pub fn some_stmts(alloc: Global, stack: &mut Stack<'_>) -> Result<(), AllocError>
    ensures { OnOk result (values_of stack.new ≡ reduced g.SomeStmts (values_of stack.old)) }
{
    let mut stmts = pop_stmts(alloc, stack);
    let stmt = pop_stmt(stack);
    stmts.push(stmt)?;
    push(stack, Piece::Stmts(stmts))?;
    Ok(())
}

/// Text outside the code.
pub fn inline(alloc: Global, stack: &mut Stack<'_>) -> Result<(), AllocError>
    ensures { OnOk result (values_of stack.new ≡ reduced g.InlineText (values_of stack.old)) }
{
    let token = pop_token(stack);
    let text = text_of(alloc, token)?;
    push(stack, Piece::Stmt(Stmt::Inline(text, line_of(token))))?;
    Ok(())
}

/// `echo` with its expressions.
pub fn echo(alloc: Global, stack: &mut Stack<'_>) -> Result<(), AllocError>
    ensures { OnOk result (values_of stack.new ≡ reduced g.EchoWord (values_of stack.old)) }
{
    skip(stack);
    let exprs = pop_more_exprs(alloc, stack)?;
    let line = pop_line(stack);
    push(stack, Piece::Stmt(Stmt::Echo(exprs.into_items(), line)))?;
    Ok(())
}

/// A lone semicolon.
pub fn empty(stack: &mut Stack<'_>) -> Result<(), AllocError>
    ensures { OnOk result (values_of stack.new ≡ reduced g.EmptyStmt (values_of stack.old)) }
{
    let line = pop_line(stack);
    push(stack, Piece::Stmt(Stmt::Empty(line)))?;
    Ok(())
}

/// Statements in braces.
pub fn block(alloc: Global, stack: &mut Stack<'_>) -> Result<(), AllocError>
    ensures { OnOk result (values_of stack.new ≡ reduced g.Block (values_of stack.old)) }
{
    skip(stack);
    let stmts = pop_stmts(alloc, stack);
    let line = pop_line(stack);
    push(stack, Piece::Stmt(Stmt::Block(stmts.into_items(), line)))?;
    Ok(())
}

/// `break` and `continue`.
pub fn jump(stack: &mut Stack<'_>) -> Result<(), AllocError>
    ensures { OnOk result (values_of stack.new ≡ reduced g.JumpStmt (values_of stack.old)) }
{
    skip(stack);
    let levels = pop_int(stack);
    let token = pop_token(stack);
    let line = line_of(token);
    let stmt = match detail_of(token) {
        Detail::Continue => Stmt::Continue(levels, line),
        _ => Stmt::Break(levels, line),
    };
    push(stack, Piece::Stmt(stmt))?;
    Ok(())
}

/// `return`.
pub fn return_of(stack: &mut Stack<'_>) -> Result<(), AllocError>
    ensures { OnOk result (values_of stack.new ≡ reduced g.ReturnStmt (values_of stack.old)) }
{
    skip(stack);
    let expr = pop_maybe(stack);
    let line = pop_line(stack);
    push(stack, Piece::Stmt(Stmt::Return(expr, line)))?;
    Ok(())
}

/// `global` with its variables.
pub fn global(alloc: Global, stack: &mut Stack<'_>) -> Result<(), AllocError>
    ensures { OnOk result (values_of stack.new ≡ reduced g.GlobalStmt (values_of stack.old)) }
{
    skip(stack);
    let mut numbers = pop_vars(alloc, stack);
    let first = pop_number(stack);
    let line = pop_line(stack);
    numbers.push(first)?;
    push(stack, Piece::Stmt(Stmt::Global(numbers.into_items(), line)))?;
    Ok(())
}

/// `unset` with its places.
pub fn unset(alloc: Global, stack: &mut Stack<'_>) -> Result<(), AllocError>
    ensures { OnOk result (values_of stack.new ≡ reduced g.UnsetStmt (values_of stack.old)) }
{
    skip(stack);
    skip(stack);
    let places = pop_more_exprs(alloc, stack)?;
    skip(stack);
    let line = pop_line(stack);
    push(stack, Piece::Stmt(Stmt::Unset(places.into_items(), line)))?;
    Ok(())
}

/// `throw`.
pub fn throw(alloc: Global, stack: &mut Stack<'_>) -> Result<(), AllocError>
    ensures { OnOk result (values_of stack.new ≡ reduced g.ThrowStmt (values_of stack.old)) }
{
    skip(stack);
    let expr = pop_boxed(alloc, stack)?;
    let line = pop_line(stack);
    push(stack, Piece::Stmt(Stmt::Throw(expr, line)))?;
    Ok(())
}

/// An expression as a statement.
pub fn expression(alloc: Global, stack: &mut Stack<'_>) -> Result<(), AllocError>
    ensures { OnOk result (values_of stack.new ≡ reduced g.ExprStmt (values_of stack.old)) }
{
    skip(stack);
    let expr = pop_expr(stack);
    let line = expr.line();
    let expr = Boxed::new(alloc, expr)?;
    push(stack, Piece::Stmt(Stmt::Expr(expr, line)))?;
    Ok(())
}

/// The placeholder of what was removed.
pub fn removed(alloc: Global, stack: &mut Stack<'_>) -> Result<(), AllocError>
    ensures { OnOk result (values_of stack.new ≡ reduced g.RemovedStmt (values_of stack.old)) }
{
    skip(stack);
    skip(stack);
    let name = pop_text(stack);
    let path = pop_bytes(alloc, stack)?;
    skip(stack);
    let kind = pop_bytes(alloc, stack)?;
    skip(stack);
    let line = pop_line(stack);
    push(stack, Piece::Stmt(Stmt::Removed(kind, path, name, line)))?;
    Ok(())
}

/// A text after a comma.
pub fn next_text(alloc: Global, stack: &mut Stack<'_>) -> Result<(), AllocError>
    ensures { OnOk result (values_of stack.new ≡ reduced g.NextText (values_of stack.old)) }
{
    let text = pop_bytes(alloc, stack)?;
    skip(stack);
    push(stack, Piece::Text(Some(text)))?;
    Ok(())
}

/// A number of levels.
pub fn an_int(stack: &mut Stack<'_>) -> Result<(), AllocError>
    ensures { OnOk result (values_of stack.new ≡ reduced g.AnInt (values_of stack.old)) }
{
    let token = pop_token(stack);
    push(stack, Piece::Int(int_of(token)))?;
    Ok(())
}

/// A variable after a comma, before the others.
pub fn next_var(alloc: Global, stack: &mut Stack<'_>) -> Result<(), AllocError>
    ensures { OnOk result (values_of stack.new ≡ reduced g.NextVar (values_of stack.old)) }
{
    let mut numbers = pop_vars(alloc, stack);
    let number = pop_number(stack);
    skip(stack);
    numbers.push(number)?;
    push(stack, Piece::Vars(numbers))?;
    Ok(())
}

/// The variable after `=>`.
pub fn key_then_value(stack: &mut Stack<'_>) -> Result<(), AllocError>
    ensures { OnOk result (values_of stack.new ≡ reduced g.KeyThenValue (values_of stack.old)) }
{
    let number = pop_number(stack);
    skip(stack);
    push(stack, Piece::Second(Some(number)))?;
    Ok(())
}
