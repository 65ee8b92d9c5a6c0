// How a function is entered.

ghost use Rattle.std.specs.Prelude.{IfOk, OnOk};
ghost use Rattle.php_meaning.specs.Apply as meaning;
ghost use Rattle.php_meaning.specs.Calls as calls;
ghost use Rattle.php_rest.specs.Views.{arguments_named, function_named};
ghost use Rattle.php_state.specs.Fits.{Keeps};
ghost use Rattle.php_state.specs.Laws.{Runs};
ghost use Rattle.php_bindings.specs.Alike.{RunsAlike};
ghost use Rattle.php_bindings.specs.Bounds.{bounds_named};

use crate::bound::{Bound, Bounds, bind_all};
use crate::parameters::all_bound;
use backward_list::Backward;
use php_meaning::FatalName;
use php_rest::{Argument, CallFrame, Frame, Function, Now, Owner, Scene};
use php_state::State;
use sqlite_items::Items;
use std::alloc::{AllocError, Global};

/// How many calls and includes can enclose one another.
const MAX_DEPTH: usize = 1000;

// Enters a function whose parameters have their values.
fn enter<'a>(
    alloc: Global,
    function: Function<'a>,
    bounds: Vec<Bound>,
    state: &mut State<'a>,
    stack: &mut Backward<Frame<'a>>,
) -> Result<Now<'a>, AllocError>
    ensures law { IfOk result (Runs state.old state.new stack.old stack.new (λ t. calls.enter (function_named t function.entry) (bounds_named t bounds.items))) }
    ensures keeps { OnOk result (Keeps state.old state.new) }
{
    let caller = state.scene;
    if caller.depth >= MAX_DEPTH {
        return Ok(Now::Fail(FatalName::Depth));
    }
    stack.push(Frame::OfCall(CallFrame::Caller(function, caller)))?;
    state.store.enter()?;
    bind_all(alloc, bounds, &mut state.store)?;
    state.scene = Scene {
        owner: Owner::Function(function),
        depth: caller.depth + 1,
        file: caller.file,
        line: caller.line,
    };
    Ok(Now::Enter(Owner::Function(function)))
}

/// Calls a function of the program: its parameters get their values, and it is entered.
pub fn call_function<'a>(
    alloc: Global,
    function: Function<'a>,
    args: Items<Argument>,
    state: &mut State<'a>,
    stack: &mut Backward<Frame<'a>>,
) -> Result<Now<'a>, AllocError>
    ensures law { IfOk result (RunsAlike state.old state.new stack.old stack.new (λ t. meaning.apply (calls.program (function_named t function.entry)) (arguments_named t args))) }
    ensures keeps { OnOk result (Keeps state.old state.new) }
{
    match all_bound(alloc, function, args.as_slice(), state)? {
        Bounds::All(bounds) => {
            drop(args);
            let now = enter(alloc, function, bounds, state, stack)?;
            Ok(now)
        }
        Bounds::Fails(why) => Ok(Now::Fail(why)),
    }
}
