//! An operand with what its level goes on with.

ghost use Rattle.std.specs.Prelude.{◌≡◌, OnOk};
ghost use Rattle.php_pieces.specs.Pieces.{values_of};
ghost use Rattle.php_pieces.specs.Stacks.{linked_on};

use php_building::operator::joined;
use php_building::part::{Join, Tail};
use php_pieces::piece::Piece;
use php_pieces::stack::{Stack, pop, push};
use php_popped::parts::pop_join;
use sqlite_items::Items;
use std::alloc::{AllocError, Global};

/// An operand and what its level goes on with become one node.
#[tactic(auto, using(php_building::proofs::Joins::joins))]
pub fn join(alloc: Global, stack: &mut Stack<'_>) -> Result<(), AllocError>
    ensures { OnOk result (values_of stack.new ≡ linked_on (values_of stack.old)) }
{
    let join = pop_join(stack);
    match pop(stack) {
        Piece::Expr(expr) => {
            let made = joined(alloc, expr, join)?;
            push(stack, Piece::Expr(made))?;
        }
        Piece::Begun(tail, joins) => {
            let mut joins = joins;
            joins.push(join)?;
            push(stack, Piece::Begun(tail, joins))?;
        }
        other => {
            drop(other);
            drop(join);
            push(stack, Piece::Unit)?;
        }
    }
    Ok(())
}
