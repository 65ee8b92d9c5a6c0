// Elements of arrays.

ghost use Rattle.std.specs.Prelude.{◌≡◌, IfOk};
ghost use Rattle.php_values.specs.Data.{Data, data_of};
ghost use Rattle.php_world.specs.View.{step_of};
ghost use Rattle.php_meaning.specs.Course.{Does};
ghost use Rattle.php_meaning.specs.Constants as meaning;
ghost use Rattle.php_fixed.specs.Evaluated.{gone_on};

use order_map::OrderMap;
use php_rest::{Outcome, place_refused};
use php_values::{ArrayValue, Value};
use php_world::{Change, Step, write_value};
use std::alloc::{AllocError, Global};

/// An array without elements.
pub(crate) fn no_elements(alloc: Global) -> Result<Value, AllocError>
    ensures { IfOk result (λ v. data_of v ≡ meaning.no_elements) }
{
    Ok(Value::List(ArrayValue::new(alloc, OrderMap::new(alloc))?))
}

/// An array with one element more.
pub(crate) fn with_element(
    alloc: Global,
    array: Value,
    step: Step,
    value: Value,
) -> Result<Outcome, AllocError>
    ensures { IfOk result (λ o. (go : Data → Does) → gone_on o go ≡ meaning.with_element (data_of array) (step_of step) (data_of value) go) }
{
    let mut array = array;
    match write_value(alloc, &mut array, &[step], Change::Put(value)) {
        Ok(()) => Ok(Outcome::Gives(array)),
        Err(fault) => Ok(Outcome::Fails(place_refused(fault)?)),
    }
}
