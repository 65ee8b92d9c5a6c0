// The keys of a place, in their order.

ghost use Rattle.std.specs.Prelude.{◌≡◌, [], ◌∷◌, ◌++◌, IfOk};
ghost use Rattle.php_values.specs.Data.{data_of};
ghost use Rattle.php_world.specs.View.{path_of, step_of};
ghost use Rattle.php_meaning.specs.Course.{Gives};
ghost use Rattle.php_meaning.specs.Expressions as expressions;
ghost use Rattle.php_rest.specs.Laws.{Steps, Writes};
ghost use Rattle.php_rest.specs.Named.{accesses_named};
ghost use Rattle.php_rest.specs.Rest.{after_place, signal_of, used};
ghost use Rattle.php_rest.specs.Tails.{left_in};

use crate::removal::remove;
use crate::writing::{assign, step_place};
use backward_list::Backward;
use order_map::ByteText;
use php_meaning::FatalName;
use php_rest::{Ending, Frame, Now, PlaceFrame, Tail, Target};
use php_tree::expr::{Access, Expr};
use php_values::Value;
use php_world::{Step, Store};
use sqlite_items::Items;
use std::alloc::{AllocError, Global};

// What is done with a path whose keys are all there.
fn use_path<'a>(
    alloc: Global,
    path: Items<Step>,
    target: Target<'a>,
    store: &mut Store,
    stack: &mut Backward<Frame<'a>>,
) -> Result<Now<'a>, AllocError>
    ensures { IfOk result (Writes store.old store.new stack.old stack.new (λ t. used t target.entry (path_of path))) }
{
    match target {
        Target::Assign(number, op, value) => {
            stack.push(Frame::OfPlace(PlaceFrame::AssignTo(number, path, op)))?;
            Ok(Now::Evaluate(value.get()))
        }
        Target::Step(number, op) => {
            let now = step_place(alloc, number, path.as_slice(), op, store)?;
            Ok(now)
        }
        Target::Unset(number, more) => {
            let now = remove(alloc, number, path.as_slice(), more, store, stack)?;
            Ok(now)
        }
    }
}

/// The keys that are still to be evaluated.
pub(crate) fn go_on<'a>(
    alloc: Global,
    path: Items<Step>,
    accesses: Tail<'a, Access<Expr>>,
    target: Target<'a>,
    store: &mut Store,
    stack: &mut Backward<Frame<'a>>,
) -> Result<Now<'a>, AllocError>
    ensures { IfOk result (Writes store.old store.new stack.old stack.new (λ t. expressions.steps (accesses_named t (left_in accesses.entry)) (path_of path) (used t target.entry))) }
{
    match accesses.cut() {
        None => {
            let now = use_path(alloc, path, target, store, stack)?;
            Ok(now)
        }
        Some((first, more)) => match first {
            Access::Index(key) => {
                stack.push(Frame::OfPlace(PlaceFrame::KeyIn(path, more, target)))?;
                Ok(Now::Evaluate(key))
            }
            Access::Append => {
                let now = behind(path, Step::Next, more, target, stack)?;
                Ok(now)
            }
            Access::Property(name) => {
                let name = ByteText::from_slice(alloc, name.text.as_slice())?;
                let now = behind(path, Step::Member(name), more, target, stack)?;
                Ok(now)
            }
            Access::Method(_, _) => Ok(Now::Fail(FatalName::Uncaught)),
        },
    }
}

// One step more without a key, and then the others.
fn behind<'a>(
    path: Items<Step>,
    step: Step,
    more: Tail<'a, Access<Expr>>,
    target: Target<'a>,
    stack: &mut Backward<Frame<'a>>,
) -> Result<Now<'a>, AllocError>
    ensures { IfOk result (Steps stack.old stack.new (λ t. expressions.steps (accesses_named t (left_in more.entry)) (path_of path ++ step_of step ∷ []) (used t target.entry))) }
{
    let mut path = path;
    path.push(step)?;
    stack.push(Frame::OfPlace(PlaceFrame::KeysBehind(path, more, target)))?;
    Ok(Now::End(Ending::Normal))
}

/// Goes on with a value that a frame of a node that writes waited for.
pub fn resume_place<'a>(
    alloc: Global,
    frame: PlaceFrame<'a>,
    value: Value,
    store: &mut Store,
    stack: &mut Backward<Frame<'a>>,
) -> Result<Now<'a>, AllocError>
    ensures { IfOk result (Writes store.old store.new stack.old stack.new (λ t w k. after_place t frame.entry k (Gives (data_of value)) w)) }
{
    match frame {
        PlaceFrame::KeyIn(path, more, target) => {
            let mut path = path;
            path.push(Step::At(value))?;
            let now = go_on(alloc, path, more, target, store, stack)?;
            Ok(now)
        }
        PlaceFrame::KeysBehind(_, _, _) => Ok(Now::Give(value)),
        PlaceFrame::AssignTo(number, path, op) => {
            let now = assign(alloc, number, path.as_slice(), op, value, store)?;
            Ok(now)
        }
    }
}

/// Goes on after the end of what a frame of a node that writes waited for.
pub fn resume_behind<'a>(
    alloc: Global,
    frame: PlaceFrame<'a>,
    ending: Ending,
    store: &mut Store,
    stack: &mut Backward<Frame<'a>>,
) -> Result<Now<'a>, AllocError>
    ensures { IfOk result (Writes store.old store.new stack.old stack.new (λ t w k. after_place t frame.entry k (signal_of ending) w)) }
{
    match frame {
        PlaceFrame::KeyIn(_, _, _) => Ok(Now::End(ending)),
        PlaceFrame::KeysBehind(path, more, target) => match ending {
            Ending::Normal => {
                let now = go_on(alloc, path, more, target, store, stack)?;
                Ok(now)
            }
            other => Ok(Now::End(other)),
        },
        PlaceFrame::AssignTo(_, _, _) => Ok(Now::End(ending)),
    }
}
