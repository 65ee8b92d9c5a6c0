// Arrays that are made item by item.

ghost use Rattle.std.specs.Prelude.{◌≡◌, take, drop, OnOk, IfOk};
ghost use Rattle.php_values.specs.Data.{data_of, array_of, array};
ghost use Rattle.php_values.specs.Walks.{rest_of};
ghost use Rattle.php_list_calls.specs.Items as spec;
ghost use Rattle.php_list_calls.specs.ListCalls.{GivesValue, Ok};

use order_map::{Key, OrderMap};
use php_arguments::CallFault;
use php_values::{ArrayValue, Value, Walk};
use std::alloc::{AllocError, Global};

// An array as a value.
pub(crate) fn array_value(alloc: Global, map: OrderMap<Value>) -> Result<Value, CallFault>
    ensures { GivesValue (Ok (array (array_of map))) result }
{
    let array = ArrayValue::new(alloc, map)?;
    Ok(Value::List(array))
}

// A key as a value.
pub(crate) fn key_value(key: &Key) -> Result<Value, AllocError>
    ensures { IfOk result (λ v. data_of v ≡ spec.key_value key.now) }
{
    match key {
        Key::Int(n) => Ok(Value::Int(*n)),
        Key::Text(text) => Ok(Value::Bytes(text.clone()?)),
    }
}

// Adds a value under the next key. So many values that none is left do not fit into memory.
pub(crate) fn add_value(map: &mut OrderMap<Value>, value: Value) -> Result<(), AllocError>
    ensures { OnOk result (array_of map.new ≡ spec.with_next (data_of value) (array_of map.old)) }
{
    match map.append(value) {
        Ok(_) => Ok(()),
        Err(_) => Err(AllocError),
    }
}

// Sets a value under a key.
pub(crate) fn set_value(map: &mut OrderMap<Value>, key: Key, value: Value) -> Result<(), AllocError>
    ensures { OnOk result (array_of map.new ≡ spec.with_set key (data_of value) (array_of map.old)) }
{
    let _old = map.set(key, value)?;
    Ok(())
}

// Sets a copy of a value under a copy of its key.
pub(crate) fn set_item(
    map: &mut OrderMap<Value>,
    key: &Key,
    value: &Value,
) -> Result<(), AllocError>
    ensures { OnOk result (array_of map.new ≡ spec.with_set key.now (data_of value.now) (array_of map.old)) }
{
    let key = key.clone()?;
    let value = value.clone()?;
    set_value(map, key, value)
}

// Adds a copy of a value, under the next key where its own is a number.
pub(crate) fn add_item(
    map: &mut OrderMap<Value>,
    key: &Key,
    value: &Value,
) -> Result<(), AllocError>
    ensures { OnOk result (array_of map.new ≡ spec.with_item key.now (data_of value.now) (array_of map.old)) }
{
    match key {
        Key::Int(_) => add_value(map, value.clone()?),
        Key::Text(_) => set_item(map, key, value),
    }
}

// Adds copies of so many items of a walk.
pub(crate) fn add_items(
    map: &mut OrderMap<Value>,
    walk: &mut Walk<'_>,
    count: usize,
) -> Result<(), AllocError>
    ensures { OnOk result (array_of map.new ≡ spec.with_items (array_of map.old) (take count (spec.items_of (rest_of walk.old)))) }
{
    for number in 0..count {
        match walk.next() {
            None => return Ok(()),
            Some((key, value)) => add_item(map, key, value)?,
        }
    }
    Ok(())
}

// Adds the items of an array behind others.
pub(crate) fn add_array(
    map: &mut OrderMap<Value>,
    array: &OrderMap<Value>,
) -> Result<(), AllocError>
    ensures { OnOk result (array_of map.new ≡ spec.with_items (array_of map.old) (spec.items (array_of array.now))) }
{
    let mut walk = Walk::new(array);
    add_items(map, &mut walk, array.len())?;
    Ok(())
}

// Passes over so many items.
pub(crate) fn pass_over(walk: &mut Walk<'_>, count: usize)
    ensures { rest_of walk.new ≡ drop count (rest_of walk.old) }
{
    for number in 0..count {
        match walk.next() {
            None => return,
            Some(_) => {}
        }
    }
}
