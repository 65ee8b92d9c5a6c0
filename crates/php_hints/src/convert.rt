// Values by the names of hints.

ghost use Rattle.std.specs.Prelude.{◌≡◌, IfOk};
ghost use Rattle.std.specs.Option.{option_map};
ghost use Rattle.std.specs.Str.{str_to_ascii_lowercase};
ghost use Rattle.php_values.specs.Data.{data_of};
ghost use Rattle.php_meaning.specs.Hints as spec;

use order_map::ByteText;
use php_names::is_word;
use php_values::{Number, Value, is_numeric, leading_number, truth};
use std::alloc::{AllocError, Global};

fn whole_number(number: Number) -> Option<Value>
    ensures { option_map data_of result ≡ spec.whole_number number }
{
    match number {
        Number::Missing => None,
        Number::Whole(n) => Some(Value::Int(n)),
        Number::FloatForm => None,
    }
}

// A number, a truth value, or a text that is a whole number.
fn as_int(value: Value) -> Option<Value>
    ensures { option_map data_of result ≡ spec.as_int (data_of value) }
{
    match value {
        Value::Null => None,
        Value::Bool(b) => Some(Value::Int(i64::from(b))),
        Value::Int(n) => Some(Value::Int(n)),
        Value::Bytes(text) => {
            if is_numeric(text.as_slice()) {
                whole_number(leading_number(text.as_slice()))
            } else {
                None
            }
        }
        Value::List(_) => None,
        Value::Object(_) => None,
    }
}

fn text_of_truth(alloc: Global, b: bool) -> Result<Value, AllocError>
    ensures { IfOk result (λ v. data_of v ≡ spec.text_data b) }
{
    if b {
        Ok(Value::Bytes(ByteText::from_slice(alloc, b"1")?))
    } else {
        Ok(Value::Bytes(ByteText::from_slice(alloc, b"")?))
    }
}

fn as_string(alloc: Global, value: Value) -> Result<Option<Value>, AllocError>
    ensures { IfOk result (λ o. option_map data_of o ≡ spec.as_string (data_of value)) }
{
    match value {
        Value::Null => Ok(None),
        Value::Bool(b) => Ok(Some(text_of_truth(alloc, b)?)),
        Value::Int(n) => {
            let text = n.to_string(alloc)?;
            let text = ByteText::from_slice(alloc, text.as_bytes())?;
            Ok(Some(Value::Bytes(text)))
        }
        Value::Bytes(text) => Ok(Some(Value::Bytes(text))),
        Value::List(_) => Ok(None),
        Value::Object(_) => Ok(None),
    }
}

fn as_bool(value: Value) -> Option<Value>
    ensures { option_map data_of result ≡ spec.as_bool (data_of value) }
{
    match value {
        Value::Null => None,
        Value::Bool(b) => Some(Value::Bool(b)),
        Value::Int(n) => Some(Value::Bool(truth(&Value::Int(n)))),
        Value::Bytes(text) => Some(Value::Bool(truth(&Value::Bytes(text)))),
        Value::List(_) => None,
        Value::Object(_) => None,
    }
}

fn as_array(value: Value) -> Option<Value>
    ensures { option_map data_of result ≡ spec.as_array (data_of value) }
{
    match value {
        Value::List(array) => Some(Value::List(array)),
        Value::Null => None,
        Value::Bool(_) => None,
        Value::Int(_) => None,
        Value::Bytes(_) => None,
        Value::Object(_) => None,
    }
}

// A value by the name of a hint, in any case.
fn by_name(alloc: Global, name: &[u8], value: Value) -> Result<Option<Value>, AllocError>
    ensures { IfOk result (λ o. option_map data_of o ≡ spec.by_name (str_to_ascii_lowercase name.now) (data_of value)) }
{
    if is_word(name, b"int") {
        return Ok(as_int(value));
    }
    if is_word(name, b"string") {
        let text = as_string(alloc, value)?;
        return Ok(text);
    }
    if is_word(name, b"bool") {
        return Ok(as_bool(value));
    }
    if is_word(name, b"array") {
        return Ok(as_array(value));
    }
    Ok(None)
}

/// Null where it is allowed, else the value by the name of a hint.
pub(crate) fn by_hint(
    alloc: Global,
    nullable: bool,
    name: &[u8],
    value: Value,
) -> Result<Option<Value>, AllocError>
    ensures { IfOk result (λ o. option_map data_of o ≡ spec.by_hint nullable (str_to_ascii_lowercase name.now) (data_of value)) }
{
    match value {
        Value::Null => {
            if nullable {
                return Ok(Some(Value::Null));
            }
            let taken = by_name(alloc, name, Value::Null)?;
            Ok(taken)
        }
        _ => {
            let taken = by_name(alloc, name, value)?;
            Ok(taken)
        }
    }
}
