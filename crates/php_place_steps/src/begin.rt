// How a node begins that writes variables.

ghost use Rattle.std.specs.Prelude.{◌≡◌, IfOk};
ghost use Rattle.php_meaning.specs.Expressions as expressions;
ghost use Rattle.php_rest.specs.Laws.{Writes};
ghost use Rattle.php_rest.specs.Named.{named};
ghost use Rattle.php_place_steps.specs.Nodes.{assigns, step_node};

use crate::keys::go_on;
use crate::writing::step_place;
use backward_list::Backward;
use php_meaning::FatalName;
use php_rest::{Frame, Now, PlaceFrame, Tail, Target};
use php_steps::variable;
use php_tree::expr::{AssignOp, Expr, StepOp};
use php_world::{Reading, Store};
use sqlite_items::{Boxed, Items};
use std::alloc::{AllocError, Global};

// `=` and its kin.
fn begin_assign<'a>(
    alloc: Global,
    place: &'a Expr,
    op: AssignOp,
    value: &'a Boxed<Expr>,
    store: &mut Store,
    stack: &mut Backward<Frame<'a>>,
) -> Result<Now<'a>, AllocError>
    ensures { IfOk result (Writes store.old store.new stack.old stack.new (λ t. assigns (named t place.now) op (named t value.now))) }
{
    match place {
        Expr::Var(number, _) => {
            let path = Items::new(alloc);
            stack.push(Frame::OfPlace(PlaceFrame::AssignTo(*number, path, op)))?;
            Ok(Now::Evaluate(value.get()))
        }
        Expr::Post(head, accesses, _) => {
            let Expr::Var(number, _) = head.get() else {
                return Ok(Now::Fail(FatalName::Uncaught));
            };
            let target = Target::Assign(*number, op, value);
            let now = go_on(
                alloc,
                Items::new(alloc),
                Tail::new(accesses),
                target,
                store,
                stack,
            )?;
            Ok(now)
        }
        _ => Ok(Now::Fail(FatalName::Uncaught)),
    }
}

// `++` and `--`.
fn begin_step<'a>(
    alloc: Global,
    op: StepOp,
    place: &'a Expr,
    store: &mut Store,
    stack: &mut Backward<Frame<'a>>,
) -> Result<Now<'a>, AllocError>
    ensures { IfOk result (Writes store.old store.new stack.old stack.new (λ t. step_node op (named t place.now))) }
{
    match place {
        Expr::Var(number, _) => {
            let now = step_place(alloc, *number, &[], op, store)?;
            Ok(now)
        }
        Expr::Post(head, accesses, _) => {
            let Expr::Var(number, _) = head.get() else {
                return Ok(Now::Fail(FatalName::Uncaught));
            };
            let target = Target::Step(*number, op);
            let now = go_on(
                alloc,
                Items::new(alloc),
                Tail::new(accesses),
                target,
                store,
                stack,
            )?;
            Ok(now)
        }
        _ => Ok(Now::Fail(FatalName::Uncaught)),
    }
}

/// Begins an assignment, a reference or a step. Any other node is handed back.
pub fn begin_place<'a>(
    alloc: Global,
    how: Reading,
    e: &'a Expr,
    store: &mut Store,
    stack: &mut Backward<Frame<'a>>,
) -> Result<Now<'a>, AllocError>
    ensures { IfOk result (Writes store.old store.new stack.old stack.new (λ t. expressions.read how (named t e.now))) }
{
    match e {
        Expr::Assign(place, op, value, _) => {
            let now = begin_assign(alloc, place.get(), *op, value, store, stack)?;
            Ok(now)
        }
        Expr::AssignReference(number, other, _) => {
            let value = variable(store, *other)?;
            store.refer(*number as usize, *other as usize)?;
            Ok(Now::Give(value))
        }
        Expr::Step(op, place, _) => {
            let now = begin_step(alloc, *op, place.get(), store, stack)?;
            Ok(now)
        }
        _ => Ok(Now::Node(how, e)),
    }
}
