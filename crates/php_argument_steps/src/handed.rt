// Variables as arguments.

ghost use Rattle.std.specs.Prelude.{◌≡◌, IfOk, drop};
ghost use Rattle.php_world.specs.Naming.{Naming};
ghost use Rattle.php_world.specs.View.{vars_of};
ghost use Rattle.php_meaning.specs.World.{World, with_vars};
ghost use Rattle.php_meaning.specs.Course.{Does, Then};
ghost use Rattle.php_meaning.specs.Calls as calls;
ghost use Rattle.php_meaning.specs.Expressions as expressions;
ghost use Rattle.php_rest.specs.Views.{argument_named, callee_named};

use php_callees::{Passing, handed_over};
use php_rest::{Argument, Callee};
use php_steps::variable;
use php_world::Store;
use std::alloc::AllocError;

/// A variable as the argument behind so many others.
pub(crate) fn handed(
    callee: Callee<'_>,
    position: usize,
    number: u32,
    store: &mut Store,
) -> Result<Argument, AllocError>
    ensures { IfOk result (λ a. (t : Naming) (w : World) (go : calls.Argument → Does) (k : Then) → go (argument_named t a) (with_vars (vars_of t store.new) w) k ≡ expressions.handed (expressions.first_passing (drop position (calls.passings (callee_named t callee.entry)))) (t.name number) go (with_vars (vars_of t store.old) w) k) }
{
    match handed_over(callee, position) {
        Passing::ByValue => {
            let value = variable(store, number)?;
            Ok(Argument::Passed(value))
        }
        Passing::ByCell => {
            let cell = store.shared_cell(number as usize)?;
            Ok(Argument::Shares(cell))
        }
        Passing::ByName => Ok(Argument::Named(number)),
    }
}
