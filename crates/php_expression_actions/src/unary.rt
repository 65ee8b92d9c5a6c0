//! What stands before an operand.
#![tactic(auto, using(php_tree::proofs::Expressions::expressions), unfolding(php_grammar::specs::Act::act, php_grammar::specs::Grammar::production))]

ghost use Rattle.std.specs.Prelude.{◌≡◌, OnOk};
ghost use Rattle.php_grammar.specs.declared.part.Rule.TheVariants as g;
ghost use Rattle.php_pieces.specs.Pieces.{values_of};
ghost use Rattle.php_pieces.specs.Stacks.{reduced};

use php_pieces::piece::Piece;
use php_pieces::stack::{Stack, push};
use php_popped::parts::pop_token;
use php_popped::pop::pop_boxed;
use php_popped::token::{detail_of, line_of};
use php_tree::expr::Expr;
use std::alloc::{AllocError, Global};

/// `print` with what it prints.
pub fn print(alloc: Global, stack: &mut Stack<'_>) -> Result<(), AllocError>
    ensures { OnOk result (values_of stack.new ≡ reduced g.PrintExpr (values_of stack.old)) }
{
    let expr = pop_boxed(alloc, stack)?;
    let token = pop_token(stack);
    push(stack, Piece::Expr(Expr::Print(expr, line_of(token))))?;
    Ok(())
}

/// An operator before its operand.
pub fn unary(alloc: Global, stack: &mut Stack<'_>) -> Result<(), AllocError>
    ensures { OnOk result (values_of stack.new ≡ reduced g.NotExpr (values_of stack.old)) }
{
    let expr = pop_boxed(alloc, stack)?;
    let token = pop_token(stack);
    push(
        stack,
        Piece::Expr(Expr::Unary(detail_of(token).unary_op(), expr, line_of(token))),
    )?;
    Ok(())
}

/// `++` or `--` before its place.
pub fn step_before(alloc: Global, stack: &mut Stack<'_>) -> Result<(), AllocError>
    ensures { OnOk result (values_of stack.new ≡ reduced g.StepBefore (values_of stack.old)) }
{
    let expr = pop_boxed(alloc, stack)?;
    let token = pop_token(stack);
    push(
        stack,
        Piece::Expr(Expr::Step(detail_of(token).step_before(), expr, line_of(token))),
    )?;
    Ok(())
}

/// `clone` with what is copied.
pub fn clone_of(alloc: Global, stack: &mut Stack<'_>) -> Result<(), AllocError>
    ensures { OnOk result (values_of stack.new ≡ reduced g.ClonePrim (values_of stack.old)) }
{
    let expr = pop_boxed(alloc, stack)?;
    let token = pop_token(stack);
    push(stack, Piece::Expr(Expr::Clone(expr, line_of(token))))?;
    Ok(())
}

/// `include` and its kin with their path.
pub fn include_of(alloc: Global, stack: &mut Stack<'_>) -> Result<(), AllocError>
    ensures { OnOk result (values_of stack.new ≡ reduced g.IncludePrim (values_of stack.old)) }
{
    let expr = pop_boxed(alloc, stack)?;
    let token = pop_token(stack);
    push(
        stack,
        Piece::Expr(Expr::Include(detail_of(token).include_kind(), expr, line_of(token))),
    )?;
    Ok(())
}
