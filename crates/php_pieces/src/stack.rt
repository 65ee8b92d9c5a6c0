//! The stack of what was read, the newest first.

ghost use Rattle.std.specs.Prelude.{◌≡◌, ◌∷◌, OnOk};
ghost use Rattle.php_grammar.specs.Values.{leaf};
ghost use Rattle.php_pieces.specs.Pieces.{value_of, values_of};
ghost use Rattle.php_pieces.specs.Stacks.{top, under};

use crate::piece::Piece;
use backward_list::Backward;
use php_grammar::lexeme::Lexeme;
use std::alloc::{AllocError, Global};

/// What was read, the newest first.
pub type Stack<'t> = Backward<Piece<'t>>;

pub fn push<'t>(stack: &mut Stack<'t>, piece: Piece<'t>) -> Result<(), AllocError>
    ensures { OnOk result (values_of stack.new ≡ value_of piece.entry ∷ values_of stack.old) }
{
    stack.push(piece)?;
    Ok(())
}

/// A token.
pub fn push_leaf<'t>(stack: &mut Stack<'t>, token: &'t Lexeme<'t>) -> Result<(), AllocError>
    ensures { OnOk result (values_of stack.new ≡ leaf token.now ∷ values_of stack.old) }
{
    push(stack, Piece::Leaf(token))?;
    Ok(())
}

/// The newest, or `Unit` where there is nothing.
pub fn pop<'t>(stack: &mut Stack<'t>) -> Piece<'t>
    ensures value { value_of result ≡ top (values_of stack.old) }
    ensures rest { values_of stack.new ≡ under (values_of stack.old) }
{
    match stack.pop() {
        Some(piece) => piece,
        None => Piece::Unit,
    }
}

/// Lets the newest go.
pub fn skip(stack: &mut Stack<'_>)
    ensures { values_of stack.new ≡ under (values_of stack.old) }
{
    drop(pop(stack));
}
