// How all parameters get their values.

ghost use Rattle.std.specs.Prelude.{◌≡◌, IfOk, drop};
ghost use Rattle.php_world.specs.Naming.{Naming};
ghost use Rattle.php_meaning.specs.Course.{Then};
ghost use Rattle.php_meaning.specs.Apply as meaning;
ghost use Rattle.php_meaning.specs.Calls as calls;
ghost use Rattle.php_rest.specs.Views.{arguments_named, function_named};
ghost use Rattle.php_state.specs.Views.{world_of};
ghost use Rattle.php_bindings.specs.Alike.{Alike};
ghost use Rattle.php_bindings.specs.Bounds.{entered_with};

use crate::bound::{Bounds, OneBound};
use crate::parameter::bound_to;
use php_rest::{Argument, Function};
use php_state::State;
use std::alloc::{AllocError, Global};

// The arguments behind the first one.
fn behind_first(args: &[Argument]) -> &[Argument]
    ensures { result.now ≡ drop 1 args.now }
{
    match args {
        [] => args,
        [_, more @ ..] => more,
    }
}

/// The parameters of a function with their values, for arguments. Further arguments are dropped.
pub(crate) fn all_bound(
    alloc: Global,
    function: Function<'_>,
    args: &[Argument],
    state: &State<'_>,
) -> Result<Bounds, AllocError>
    ensures { IfOk result (λ b. (t : Naming) (k : Then) → Alike (entered_with t (function_named t function.entry) b (world_of t state.now) k) (meaning.apply (calls.program (function_named t function.entry)) (arguments_named t args.now) (world_of t state.now) k)) }
{
    let mut args = args;
    let mut all = Vec::new(alloc);
    let params = function.declaration.get().params.as_slice();
    for param in params {
        match bound_to(alloc, function, param, args, state)? {
            OneBound::Bound(bound) => all.push(bound)?,
            OneBound::Fails(why) => return Ok(Bounds::Fails(why)),
        }
        args = behind_first(args);
    }
    Ok(Bounds::All(all))
}
