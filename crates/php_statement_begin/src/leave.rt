// How many loops a `break` or a `continue` leaves, and the names that `global` binds.

ghost use Rattle.std.specs.Prelude.{◌≡◌, map, OnOk};
ghost use Rattle.php_world.specs.Naming.{Naming};
ghost use Rattle.php_world.specs.View.{vars_of};
ghost use Rattle.php_meaning.specs.World.{World, with_vars};
ghost use Rattle.php_meaning.specs.Statements as statements;

use php_world::Store;
use std::alloc::AllocError;

/// How many loops and switches around the innermost one a number names.
pub(crate) fn around(number: i64) -> u64
    ensures { result ≡ statements.around number }
{
    if number < 1 {
        return 0;
    }
    (number - 1) as u64
}

/// Makes names those of global variables' cells, in their order.
pub(crate) fn bind_globals(numbers: &[u32], store: &mut Store) -> Result<(), AllocError>
    ensures { OnOk result ((t : Naming) (w : World) → with_vars (vars_of t store.new) w ≡ statements.globals_named (map t.name numbers.now) (with_vars (vars_of t store.old) w)) }
{
    for number in numbers {
        store.global(*number as usize)?;
    }
    Ok(())
}
