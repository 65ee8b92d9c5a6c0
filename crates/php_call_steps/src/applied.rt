// What is done once all arguments of a call are there.

ghost use Rattle.std.specs.Prelude.{IfOk, OnOk};
ghost use Rattle.php_meaning.specs.Apply as meaning;
ghost use Rattle.php_rest.specs.Views.{arguments_named, callee_named};
ghost use Rattle.php_state.specs.Fits.{Keeps};
ghost use Rattle.php_argument_steps.specs.Reached as steps;
ghost use Rattle.php_bindings.specs.Alike.{RunsAlike};

use backward_list::Backward;
use php_argument_steps::Reached;
use php_bindings::call_function;
use php_library_steps::apply_library;
use php_rest::{Argument, Callee, Frame, Now};
use php_state::State;
use sqlite_items::Items;
use std::alloc::{AllocError, Global};

/// Calls a function of the program, which is entered, or of the library.
pub fn apply<'a>(
    alloc: Global,
    callee: Callee<'a>,
    args: Items<Argument>,
    state: &mut State<'a>,
    stack: &mut Backward<Frame<'a>>,
) -> Result<Now<'a>, AllocError>
    ensures law { IfOk result (RunsAlike state.old state.new stack.old stack.new (λ t. meaning.apply (callee_named t callee.entry) (arguments_named t args))) }
    ensures keeps { OnOk result (Keeps state.old state.new) }
{
    match callee {
        Callee::Program(function) => {
            let now = call_function(alloc, function, args, state, stack)?;
            Ok(now)
        }
        Callee::Text(_) | Callee::List(_) | Callee::System(_) => {
            let now = apply_library(alloc, callee, args, state)?;
            Ok(now)
        }
    }
}

/// Calls what is called once all arguments are there; before that, what comes next stays.
pub(crate) fn carried_on<'a>(
    alloc: Global,
    reached: Reached<'a>,
    state: &mut State<'a>,
    stack: &mut Backward<Frame<'a>>,
) -> Result<Now<'a>, AllocError>
    ensures law { IfOk result (RunsAlike state.old state.new stack.old stack.new (λ t. steps.reached t reached.entry)) }
    ensures keeps { OnOk result (Keeps state.old state.new) }
{
    match reached {
        Reached::Next(now) => Ok(now),
        Reached::Ready(callee, args) => {
            let now = apply(alloc, callee, args, state, stack)?;
            Ok(now)
        }
    }
}
