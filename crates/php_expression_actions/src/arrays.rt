//! The word `array`.
#![tactic(auto, using(php_tree::proofs::Expressions::expressions), unfolding(php_grammar::specs::Act::act, php_grammar::specs::Grammar::production))]

ghost use Rattle.std.specs.Prelude.{◌≡◌, OnOk};
ghost use Rattle.php_grammar.specs.declared.part.Rule.TheVariants as g;
ghost use Rattle.php_pieces.specs.Pieces.{values_of};
ghost use Rattle.php_pieces.specs.Stacks.{reduced};
ghost use Rattle.std.specs.Prelude.{IfOk, true};
ghost use Rattle.php_grammar.specs.Act as spec;
ghost use Rattle.php_pieces.specs.Pieces.{value_of};
ghost use Rattle.php_building.specs.Parts.{tail_of};
ghost use Rattle.php_tree.specs.ExpressionOf.{expression_of, items_of};
ghost use Rattle.php_tree.specs.Expressions as x;

use backward_list::Backward;
use php_building::operand::{Begun, finished, named};
use php_building::part::Tail;
use php_pieces::piece::Piece;
use php_pieces::stack::{Stack, pop, push, skip};
use php_popped::lists::pop_items;
use php_popped::parts::{pop_tail, pop_token};
use php_popped::token::{line_of, text_of};
use php_tree::expr::{Expr, Item};
use php_tree::name::ConstName;
use sqlite_items::Items;
use std::alloc::{AllocError, Global};

/// The word `array` with what stands after it.
pub fn array(alloc: Global, stack: &mut Stack<'_>) -> Result<(), AllocError>
    ensures { OnOk result (values_of stack.new ≡ reduced (g.ArrayPrim true) (values_of stack.old)) }
{
    let rest = pop(stack);
    let token = pop_token(stack);
    let text = match text_of(alloc, token) {
        Ok(text) => text,
        Err(err) => {
            drop(rest);
            return Err(err);
        }
    };
    let made = array_or_name(alloc, text, line_of(token), rest)?;
    push(stack, Piece::Expr(made))?;
    Ok(())
}

/// An array with what goes on after it.
fn given_array(
    alloc: Global,
    items: Backward<Item<Expr>>,
    line: u32,
    tail: Tail,
) -> Result<Expr, AllocError>
    ensures { IfOk result (λ made. expression_of made
        ≡ spec.finished (spec.given (x.array (items_of items) line)) (tail_of tail)) }
{
    let head = Expr::Array(items.into_items(), line);
    let made = finished(alloc, Begun::Given(head), tail)?;
    Ok(made)
}

/// An array, or a class that is named so.
fn array_or_name(
    alloc: Global,
    text: Items<u8>,
    line: u32,
    rest: Piece<'_>,
) -> Result<Expr, AllocError>
    ensures { IfOk result (λ made. expression_of made ≡ spec.array_or_name text line (value_of rest.entry)) }
{
    match rest {
        Piece::Array(items, tail) => match items {
            Some(items) => {
                drop(text);
                given_array(alloc, items, line, tail)
            }
            None => named(alloc, text, line, tail),
        },
        other => {
            drop(other);
            Ok(Expr::Constant(ConstName { text }, line))
        }
    }
}

/// The items of `array(..)`, and what goes on after them.
pub fn array_items(alloc: Global, stack: &mut Stack<'_>) -> Result<(), AllocError>
    ensures { OnOk result (values_of stack.new ≡ reduced (g.ArrayItems true) (values_of stack.old)) }
{
    let tail = pop_tail(alloc, stack);
    skip(stack);
    let items = pop_items(alloc, stack);
    skip(stack);
    push(stack, Piece::Array(Some(items), tail))?;
    Ok(())
}

/// What stands after the class `array` and its `::`.
pub fn array_name(alloc: Global, stack: &mut Stack<'_>) -> Result<(), AllocError>
    ensures { OnOk result (values_of stack.new ≡ reduced (g.ArrayName true) (values_of stack.old)) }
{
    let tail = pop_tail(alloc, stack);
    skip(stack);
    push(stack, Piece::Array(None, tail))?;
    Ok(())
}
