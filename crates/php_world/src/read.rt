// Reading within values.

ghost use Rattle.std.specs.Prelude.{◌≡◌};
ghost use Rattle.std.specs.declared.result.Result.TheVariants.{Ok};
ghost use Rattle.order_map.specs.declared.key.Key.{Key};
ghost use Rattle.php_values.specs.Data.{data_of, array_of};
ghost use Rattle.php_values.specs.Arithmetic.{value_in};
ghost use Rattle.php_world.specs.Answers.{Tells, TellsData, and_then};
ghost use Rattle.php_world.specs.Steps as spec;
ghost use Rattle.php_world.specs.View.{step_of, path_of};

use crate::fault::PlaceFault;
use crate::reading::Reading;
use crate::step::Step;
use order_map::{ByteText, Key};
use php_values::{ArrayValue, Value, ValueFault, key_of};
use std::alloc::Global;

/// The key that the value of an index stands for.
pub(crate) fn key_at(alloc: Global, key: &Value) -> Result<Key, PlaceFault>
    ensures { Tells (spec.key_at (data_of key.now)) result }
{
    match key_of(alloc, key) {
        Ok(key) => Ok(key),
        Err(ValueFault::Memory) => Err(PlaceFault::Memory),
        Err(_) => Err(PlaceFault::Kind),
    }
}

// What is read where a text has no byte.
fn no_byte(alloc: Global, how: Reading) -> Result<Value, PlaceFault>
    ensures { TellsData (Ok (spec.no_byte how)) result }
{
    match how {
        Reading::Plain => Ok(Value::Bytes(ByteText::new(alloc)?)),
        Reading::Quiet => Ok(Value::Null),
    }
}

// The byte of a text at an offset, from its end where the offset is negative.
fn byte_at(n: i64, text: &[u8]) -> Option<u8>
    ensures { result ≡ spec.byte_at n text.now }
{
    if n >= 0 {
        let n = n as usize;
        if n < text.len() { Some(text[n]) } else { None }
    } else {
        let n = (-(n + 1)) as usize;
        if n < text.len() {
            Some(text[text.len() - 1 - n])
        } else {
            None
        }
    }
}

// What is read of a text at a key.
fn offset_of(alloc: Global, how: Reading, text: &ByteText, key: &Key) -> Result<Value, PlaceFault>
    ensures { TellsData (spec.offset_of how text.now key.now) result }
{
    match key {
        Key::Int(n) => match byte_at(*n, text.as_slice()) {
            Some(b) => Ok(Value::Bytes(ByteText::from_slice(alloc, &[b])?)),
            None => no_byte(alloc, how),
        },
        Key::Text(_) => match how {
            Reading::Plain => Err(PlaceFault::Kind),
            Reading::Quiet => Ok(Value::Null),
        },
    }
}

// What is read of a text one index further in.
fn index_text(
    alloc: Global,
    how: Reading,
    text: &ByteText,
    key: &Value,
) -> Result<Value, PlaceFault>
    ensures { TellsData (and_then (spec.key_at (data_of key.now)) (spec.offset_of how text.now)) result }
{
    let key = key_at(alloc, key)?;
    let value = offset_of(alloc, how, text, &key)?;
    Ok(value)
}

// What is read of an array along a path whose first index is a key.
#[cycle(read)]
fn read_item(
    alloc: Global,
    how: Reading,
    array: &ArrayValue,
    key: &Value,
    more: &[Step],
) -> Result<Value, PlaceFault>
    ensures { TellsData (and_then (spec.key_at (data_of key.now)) (λ k. spec.read_by how (path_of more.now) (spec.or_null (value_in k (array_of array.now.map.value))))) result }
{
    let key = key_at(alloc, key)?;
    match array.map.as_ref().get(&key) {
        Some(inner) => read_value(alloc, how, inner, more),
        None => read_value(alloc, how, &Value::Null, more),
    }
}

// What is read of a value along a path whose first index is a key.
#[cycle(read)]
fn read_index(
    alloc: Global,
    how: Reading,
    value: &Value,
    key: &Value,
    more: &[Step],
) -> Result<Value, PlaceFault>
    ensures { TellsData (and_then (spec.index_of how (data_of key.now) (data_of value.now)) (spec.read_by how (path_of more.now))) result }
{
    match value {
        Value::List(array) => read_item(alloc, how, array, key, more),
        Value::Bytes(text) => {
            let byte = index_text(alloc, how, text, key)?;
            let found = read_value(alloc, how, &byte, more)?;
            Ok(found)
        }
        Value::Object(_) => Err(PlaceFault::ObjectAsArray),
        _ => {
            let found = read_value(alloc, how, &Value::Null, more)?;
            Ok(found)
        }
    }
}

/// What is read of a value along a path. Texts and arrays are shared.
#[cycle(read)]
pub fn read_value(
    alloc: Global,
    how: Reading,
    value: &Value,
    path: &[Step],
) -> Result<Value, PlaceFault>
    ensures { TellsData (spec.read_by how (path_of path.now) (data_of value.now)) result }
{
    match path {
        [] => {
            let copy = value.clone()?;
            Ok(copy)
        }
        [step, more @ ..] => match step {
            Step::At(key) => {
                let found = read_index(alloc, how, value, key, more)?;
                Ok(found)
            }
            Step::Next => match value {
                Value::Object(_) => Err(PlaceFault::ObjectAsArray),
                _ => {
                    let found = read_value(alloc, how, &Value::Null, more)?;
                    Ok(found)
                }
            },
            Step::Member(_) => {
                let found = read_value(alloc, how, &Value::Null, more)?;
                Ok(found)
            }
        },
    }
}
