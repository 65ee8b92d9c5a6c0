// Values written at paths within arrays.
ghost use Rattle.std.specs.Prelude.{◌≡◌, ◌+◌, ◌*◌, length, OnOk, IfOk};
ghost use Rattle.order_map.specs.Arrays.{pairs_of};
ghost use Rattle.php_values.specs.Data.{data_of, array_of, data_pairs};
ghost use Rattle.parameters.specs.Nested as spec;
ghost use Rattle.parameters.specs.declared.step.Step.TheVariants.{At, Next};

use crate::step::Step;
use order_map::{AppendFault, Key, OrderMap};
use php_values::{ArrayValue, Value, Walk, copied};
use std::alloc::{AllocError, Global};
use std::rc::Rc;

// The array that stands somewhere; anything else is replaced by an array without pairs.
fn array_in(alloc: Global, old: Value) -> Result<ArrayValue, AllocError>
    ensures { IfOk result (λ array. array_of array.map.value ≡ spec.array_in (data_of old)) }
{
    match old {
        Value::List(array) => Ok(array),
        _ => {
            let array = ArrayValue::new(alloc, OrderMap::new(alloc))?;
            Ok(array)
        }
    }
}

fn put(map: &mut OrderMap<Value>, key: Key, value: Value) -> Result<(), AllocError>
    ensures { OnOk result (array_of map.new ≡ spec.put_in key (data_of value) (array_of map.old)) }
{
    map.set(key, value)?;
    Ok(())
}

/// What stands at the beginning of a path after a value was written at its end. A path has at most 9 steps, so deep
/// goes the recursion.
#[cycle(write)]
fn written(alloc: Global, old: Value, path: &[Step], value: Value) -> Result<Value, AllocError>
    ensures { IfOk result (λ new. data_of new ≡ spec.written (data_of value) path.now (data_of old)) }
{
    let Some((step, more)) = path.split_first() else {
        return Ok(value);
    };
    let mut array = array_in(alloc, old)?;
    write_shared(alloc, &mut array.map, step, more, value)?;
    Ok(Value::List(array))
}

// Writes into an array, which is copied first if it has another owner.
#[cycle(write)]
fn write_shared(
    alloc: Global,
    shared: &mut Rc<OrderMap<Value>>,
    step: &Step,
    more: &[Step],
    value: Value,
) -> Result<(), AllocError>
    ensures { OnOk result (array_of shared.new.value ≡ spec.stepped step.now (spec.written (data_of value) more.now) (array_of shared.old.value)) }
{
    if let Some(map) = Rc::get_mut(shared) {
        write_step(alloc, map, step, more, value)?;
        return Ok(());
    }
    let mut map = copied(&**shared)?;
    write_step(alloc, &mut map, step, more, value)?;
    *shared = Rc::new(alloc, map)?;
    Ok(())
}

// Writes a value at the end of the path of a step and more.
#[cycle(write)]
fn write_step(
    alloc: Global,
    map: &mut OrderMap<Value>,
    step: &Step,
    more: &[Step],
    value: Value,
) -> Result<(), AllocError>
    ensures { OnOk result (array_of map.new ≡ spec.stepped step.now (spec.written (data_of value) more.now) (array_of map.old)) }
{
    match step {
        Step::At(key) => write_at(alloc, map, key, more, value),
        Step::Next => write_next(alloc, map, more, value),
    }
}

// The same at a key: the value is taken out, changed and put back.
#[cycle(write)]
fn write_at(
    alloc: Global,
    map: &mut OrderMap<Value>,
    key: &Key,
    more: &[Step],
    value: Value,
) -> Result<(), AllocError>
    ensures { OnOk result (array_of map.new ≡ spec.stepped (At key.now) (spec.written (data_of value) more.now) (array_of map.old)) }
{
    let old = map.replace(key, Value::Null).unwrap_or(Value::Null);
    let new = written(alloc, old, more, value)?;
    put(map, key.clone()?, new)?;
    Ok(())
}

// The same at the next free number, if there is one.
#[cycle(write)]
fn write_next(
    alloc: Global,
    map: &mut OrderMap<Value>,
    more: &[Step],
    value: Value,
) -> Result<(), AllocError>
    ensures { OnOk result (array_of map.new ≡ spec.stepped Next (spec.written (data_of value) more.now) (array_of map.old)) }
{
    let new = written(alloc, Value::Null, more, value)?;
    match map.append(new) {
        Ok(_) => Ok(()),
        Err(AppendFault::KeysSpent) => Ok(()),
        Err(AppendFault::Memory) => Err(AllocError),
    }
}

/// Writes a value at the end of a path that begins in an array. Without a step nothing is written.
pub fn write(
    alloc: Global,
    map: &mut OrderMap<Value>,
    path: &[Step],
    value: Value,
) -> Result<(), AllocError>
    ensures { OnOk result (array_of map.new ≡ spec.written_in (data_of value) path.now (array_of map.old)) }
{
    let Some((step, more)) = path.split_first() else {
        return Ok(());
    };
    write_step(alloc, map, step, more, value)?;
    Ok(())
}

/// Sets the pairs of another array over those of an array.
pub fn set_over(map: &mut OrderMap<Value>, over: &OrderMap<Value>) -> Result<(), AllocError>
    ensures { OnOk result (array_of map.new ≡ spec.set_over (data_pairs (pairs_of over.now)) (array_of map.old)) }
{
    let mut walk = Walk::new(over);
    while let Some((key, value)) = walk.next() {
        put(map, key.clone()?, value.clone()?)?;
    }
    Ok(())
}
