// Array literals.

ghost use Rattle.std.specs.Prelude.{◌≡◌, false, IfOk};
ghost use Rattle.php_values.specs.Data.{data_of};
ghost use Rattle.php_world.specs.Steps as steps;
ghost use Rattle.php_world.specs.View.{step_of};
ghost use Rattle.php_meaning.specs.Constants.{with_element};
ghost use Rattle.php_meaning.specs.Expressions as expressions;
ghost use Rattle.php_rest.specs.Laws.{Steps};
ghost use Rattle.php_steps.specs.Nodes.{is_node};
ghost use Rattle.php_rest.specs.Named.{items_named};

use backward_list::Backward;
use php_rest::{ExprFrame, Frame, Now, place_refused};
use php_tree::expr::{Expr, Item};
use php_values::Value;
use php_world::{Change, Step, write_value};
use std::alloc::{AllocError, Global};

/// The items that are still to be evaluated.
pub(crate) fn go_on<'a>(
    array: Value,
    items: &'a [Item<Expr>],
    stack: &mut Backward<Frame<'a>>,
) -> Result<Now<'a>, AllocError>
    ensures law { IfOk result (Steps stack.old stack.new (λ t. expressions.items (items_named t items.now) (data_of array))) }
    ensures plain { IfOk result (λ now. is_node now ≡ false) }
{
    match items {
        [] => Ok(Now::Give(array)),
        [first, more @ ..] => match first {
            Item::Value(value) => {
                stack.push(Frame::OfExpr(ExprFrame::ItemOf(array, more)))?;
                Ok(Now::Evaluate(value))
            }
            Item::Pair(key, value) => {
                stack.push(Frame::OfExpr(ExprFrame::KeyOf(array, value, more)))?;
                Ok(Now::Evaluate(key))
            }
        },
    }
}

// The array with one element more, and the other items.
fn with_step<'a>(
    alloc: Global,
    array: Value,
    step: Step,
    value: Value,
    items: &'a [Item<Expr>],
    stack: &mut Backward<Frame<'a>>,
) -> Result<Now<'a>, AllocError>
    ensures { IfOk result (Steps stack.old stack.new (λ t. with_element (data_of array) (step_of step) (data_of value) (expressions.items (items_named t items.now)))) }
{
    let mut array = array;
    match write_value(alloc, &mut array, &[step], Change::Put(value)) {
        Ok(()) => {
            let now = go_on(array, items, stack)?;
            Ok(now)
        }
        Err(fault) => Ok(Now::Fail(place_refused(fault)?)),
    }
}

/// An element behind the others, and the other items.
pub(crate) fn with_value<'a>(
    alloc: Global,
    array: Value,
    value: Value,
    items: &'a [Item<Expr>],
    stack: &mut Backward<Frame<'a>>,
) -> Result<Now<'a>, AllocError>
    ensures { IfOk result (Steps stack.old stack.new (λ t. with_element (data_of array) steps.next (data_of value) (expressions.items (items_named t items.now)))) }
{
    let now = with_step(alloc, array, Step::Next, value, items, stack)?;
    Ok(now)
}

/// An element at a key, and the other items.
pub(crate) fn with_pair<'a>(
    alloc: Global,
    array: Value,
    key: Value,
    value: Value,
    items: &'a [Item<Expr>],
    stack: &mut Backward<Frame<'a>>,
) -> Result<Now<'a>, AllocError>
    ensures { IfOk result (Steps stack.old stack.new (λ t. with_element (data_of array) (steps.at (data_of key)) (data_of value) (expressions.items (items_named t items.now)))) }
{
    let now = with_step(alloc, array, Step::At(key), value, items, stack)?;
    Ok(now)
}
