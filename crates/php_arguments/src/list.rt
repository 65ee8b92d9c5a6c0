// Lists that calls make.

ghost use Rattle.std.specs.Prelude.{List, ◌≡◌, ◌≤◌, ◌++◌, ◌∷◌, [], length};
ghost use Rattle.php_values.specs.Data.{Data, data_of, array_of};
ghost use Rattle.php_arguments.specs.Results as spec;

use crate::fault::CallFault;
use order_map::OrderMap;
use php_values::Value;

/// The greatest count of pairs of an array.
pub const MAX_PAIRS: usize = 100_000;

/// Adds a value behind those of a list. `Size` comes exactly where the list is full.
pub fn push_value(map: &mut OrderMap<Value>, value: Value) -> Result<(), CallFault>
    ensures { (ds : List Data) → array_of map.old ≡ spec.array_list ds → spec.GivesList (spec.listed ds (data_of value)) (array_of map.new) result }
{
    if map.len() >= MAX_PAIRS {
        return Err(CallFault::Size);
    }
    // The next key of a list is its count, so that it is never spent here.
    match map.append(value) {
        Ok(_) => Ok(()),
        Err(_) => Err(CallFault::Memory),
    }
}
