//! What goes on as it was read.
#![tactic(auto, using(php_tree::proofs::Expressions::expressions), unfolding(php_grammar::specs::Act::act, php_grammar::specs::Grammar::production))]

ghost use Rattle.std.specs.Prelude.{◌≡◌, OnOk, true};
ghost use Rattle.php_grammar.specs.declared.part.Rule.TheVariants as g;
ghost use Rattle.php_pieces.specs.Pieces.{values_of};
ghost use Rattle.php_pieces.specs.Stacks.{reduced};

use php_pieces::piece::Piece;
use php_pieces::stack::{Stack, pop, push, skip};
use std::alloc::AllocError;

/// What was read by the only symbol.
pub fn kept(stack: &mut Stack<'_>) -> Result<(), AllocError>
    ensures { OnOk result (values_of stack.new ≡ reduced g.NoPrint (values_of stack.old)) }
{
    let piece = pop(stack);
    push(stack, piece)?;
    Ok(())
}

/// What was read after a token.
pub fn after_token(stack: &mut Stack<'_>) -> Result<(), AllocError>
    ensures { OnOk result (values_of stack.new ≡ reduced (g.Arrow true true) (values_of stack.old)) }
{
    let piece = pop(stack);
    skip(stack);
    push(stack, piece)?;
    Ok(())
}

/// What was read before a token.
pub fn before_token(stack: &mut Stack<'_>) -> Result<(), AllocError>
    ensures { OnOk result (values_of stack.new ≡ reduced g.StaticExpr (values_of stack.old)) }
{
    skip(stack);
    let piece = pop(stack);
    push(stack, piece)?;
    Ok(())
}

/// A token of which nothing is kept.
pub fn ignored(stack: &mut Stack<'_>) -> Result<(), AllocError>
    ensures { OnOk result (values_of stack.new ≡ reduced g.ASemi (values_of stack.old)) }
{
    skip(stack);
    push(stack, Piece::Unit)?;
    Ok(())
}
