// What the end of a call gives.

ghost use Rattle.std.specs.Prelude.{◌≡◌, IfOk, None, OnOk};
ghost use Rattle.php_world.specs.Naming.{Naming};
ghost use Rattle.php_meaning.specs.Course.{Then};
ghost use Rattle.php_meaning.specs.Calls as calls;
ghost use Rattle.php_meaning.specs.Hints as hints;
ghost use Rattle.php_rest.specs.Rest.{next_of, signal_of};
ghost use Rattle.php_rest.specs.Views.{context_of, function_named, position_of};
ghost use Rattle.php_state.specs.Fits.{Keeps};
ghost use Rattle.php_state.specs.Views.{world_of};

use php_hints::given_by;
use php_meaning::FatalName;
use php_rest::{Ending, Function, Now, Scene};
use php_state::State;
use std::alloc::{AllocError, Global};

// What a call gives that ended without a value.
fn nothing_given<'a>(alloc: Global, function: Function<'a>) -> Result<Now<'a>, AllocError>
    ensures { IfOk result (λ now. (t : Naming) → next_of t now ≡ calls.given_or (function_named t function.entry) (hints.given_by (function_named t function.entry).head.gives None)) }
{
    let hint = function.declaration.get().result.as_ref();
    match given_by(alloc, hint, None)? {
        Some(value) => Ok(Now::Give(value)),
        None => Ok(Now::Fail(FatalName::Uncaught)),
    }
}

/// Ends a call: its variables are gone, the caller stands where it stood, and goes on with what was returned. An end without
/// a value is judged by the function's hint.
pub fn end_call<'a>(
    alloc: Global,
    function: Function<'a>,
    caller: Scene<'a>,
    how: Ending,
    state: &mut State<'a>,
) -> Result<Now<'a>, AllocError>
    ensures law { IfOk result (λ now. (t : Naming) (k : Then) → next_of t now (world_of t state.new) k ≡ calls.back (function_named t function.entry) (context_of caller.entry) (position_of caller.entry) k (signal_of how) (world_of t state.old)) }
    ensures keeps { OnOk result (Keeps state.old state.new) }
{
    state.store.leave();
    state.scene = caller;
    match how {
        Ending::Returned(value) => Ok(Now::Give(value)),
        _ => {
            let now = nothing_given(alloc, function)?;
            Ok(now)
        }
    }
}
