// What a call takes an argument for.

ghost use Rattle.std.specs.Prelude.{◌≡◌};
ghost use Rattle.php_values.specs.Data.{data_of};
ghost use Rattle.php_values.specs.Convert.{truth_of};
ghost use Rattle.php_arguments.specs.Answers.{GivesAnswer, GivesArray};
ghost use Rattle.php_arguments.specs.Arguments as spec;

use crate::fault::CallFault;
use order_map::{ByteText, OrderMap};
use php_values::{Value, to_int, to_text};
use std::alloc::Global;

/// The text of an argument that is neither an array nor an object.
pub fn text_argument(alloc: Global, value: &Value) -> Result<ByteText, CallFault>
    ensures { GivesAnswer (spec.text_argument (data_of value.now)) result }
{
    match value {
        Value::Null => text_row(alloc, value),
        Value::Bool(_) => text_row(alloc, value),
        Value::Int(_) => text_row(alloc, value),
        Value::Bytes(_) => text_row(alloc, value),
        Value::List(_) => Err(CallFault::Mistyped),
        Value::Object(_) => Err(CallFault::Mistyped),
    }
}

/// The number of an argument that is neither an array nor an object. It takes no memory.
pub fn int_argument(value: &Value) -> Result<i64, CallFault>
    ensures { GivesAnswer (spec.int_argument (data_of value.now)) result }
{
    match value {
        Value::Null => int_row(value),
        Value::Bool(_) => int_row(value),
        Value::Int(_) => int_row(value),
        Value::Bytes(_) => int_row(value),
        Value::List(_) => Err(CallFault::Mistyped),
        Value::Object(_) => Err(CallFault::Mistyped),
    }
}

/// The pairs of an argument that is an array.
pub fn array_argument(value: &Value) -> Result<&OrderMap<Value>, CallFault>
    ensures { GivesArray (spec.array_argument (data_of value.now)) result }
{
    match value {
        Value::List(array) => Ok(array.map.as_ref()),
        Value::Null => Err(CallFault::Mistyped),
        Value::Bool(_) => Err(CallFault::Mistyped),
        Value::Int(_) => Err(CallFault::Mistyped),
        Value::Bytes(_) => Err(CallFault::Mistyped),
        Value::Object(_) => Err(CallFault::Mistyped),
    }
}

/// The text of any value but an object.
pub fn text_row(alloc: Global, value: &Value) -> Result<ByteText, CallFault>
    ensures { GivesAnswer (spec.text_row (data_of value.now)) result }
{
    let text = to_text(alloc, value)?;
    Ok(text)
}

/// The number of any value but an object. It takes no memory.
pub fn int_row(value: &Value) -> Result<i64, CallFault>
    ensures { GivesAnswer (spec.int_row (data_of value.now)) result }
{
    let number = to_int(value)?;
    Ok(number)
}

/// The number of an argument, or what stands for it where it is left out.
pub fn int_or(default: i64, value: Option<&Value>) -> Result<i64, CallFault>
    ensures { GivesAnswer (spec.int_or default (spec.optional value.entry)) result }
{
    match value {
        None => Ok(default),
        Some(value) => int_argument(value),
    }
}

/// The number of an argument, if it is not left out.
pub fn int_if_given(value: Option<&Value>) -> Result<Option<i64>, CallFault>
    ensures { GivesAnswer (spec.int_if_given (spec.optional value.entry)) result }
{
    match value {
        None => Ok(None),
        Some(value) => {
            let number = int_argument(value)?;
            Ok(Some(number))
        }
    }
}

/// The text of an argument, or what stands for it where it is left out.
pub fn text_or(alloc: Global, default: &[u8], value: Option<&Value>) -> Result<ByteText, CallFault>
    ensures { GivesAnswer (spec.text_or default.now (spec.optional value.entry)) result }
{
    match value {
        None => Ok(ByteText::from_slice(alloc, default)?),
        Some(value) => text_argument(alloc, value),
    }
}
