// Conversions of values.

ghost use Rattle.std.specs.Prelude.{◌≡◌};
ghost use Rattle.std.specs.Fmt as fmt;
ghost use Rattle.php_values.specs.Data.{data_of};
ghost use Rattle.php_values.specs.Answers.{Gives};
ghost use Rattle.php_values.specs.Convert as spec;

use crate::fault::ValueFault;
use crate::number::{Number, leading_number, normal_number};
use crate::seen::text_truth;
use crate::value::Value;
use order_map::{ByteText, Key};
use std::alloc::Global;

/// Whether a value counts as true.
pub fn truth(value: &Value) -> bool
    ensures { result ≡ spec.truth_of (data_of value.now) }
{
    match value {
        Value::Null => false,
        Value::Bool(b) => *b,
        Value::Int(n) => *n != 0,
        Value::Bytes(text) => text_truth(text.as_slice()),
        Value::List(array) => array.has_pairs(),
        Value::Object(_) => true,
    }
}

pub(crate) fn number_or_zero(number: Number) -> Result<i64, ValueFault>
    ensures { result ≡ spec.number_or_zero number }
{
    match number {
        Number::Missing => Ok(0),
        Number::Whole(n) => Ok(n),
        Number::FloatForm => Err(ValueFault::Float),
    }
}

pub(crate) fn zero_or_one(b: bool) -> i64
    ensures { result ≡ spec.zero_or_one b }
{
    if b { 1 } else { 0 }
}

/// The number of a value. It takes no memory.
pub fn to_int(value: &Value) -> Result<i64, ValueFault>
    ensures { result ≡ spec.int_of (data_of value.now) }
{
    match value {
        Value::Null => Ok(0),
        Value::Bool(b) => Ok(zero_or_one(*b)),
        Value::Int(n) => Ok(*n),
        Value::Bytes(text) => number_or_zero(leading_number(text.as_slice())),
        Value::List(array) => Ok(zero_or_one(array.has_pairs())),
        Value::Object(_) => Err(ValueFault::Kind),
    }
}

// The decimal text of a number.
fn decimal_text(alloc: Global, n: i64) -> Result<ByteText, ValueFault>
    ensures { Gives (spec.Ok (fmt.signed_decimal n)) result }
{
    let text = n.to_string(alloc)?;
    let text = ByteText::from_slice(alloc, text.as_bytes())?;
    Ok(text)
}

fn literal(alloc: Global, bytes: &[u8]) -> Result<ByteText, ValueFault>
    ensures { Gives (spec.Ok bytes.now) result }
{
    let text = ByteText::from_slice(alloc, bytes)?;
    Ok(text)
}

/// The text of a value. `Kind` comes exactly at an object.
pub fn to_text(alloc: Global, value: &Value) -> Result<ByteText, ValueFault>
    ensures { Gives (spec.text_of (data_of value.now)) result }
{
    match value {
        Value::Null => literal(alloc, b""),
        Value::Bool(true) => literal(alloc, b"1"),
        Value::Bool(false) => literal(alloc, b""),
        Value::Int(n) => decimal_text(alloc, *n),
        Value::Bytes(text) => Ok(text.clone()?),
        Value::List(_) => literal(alloc, b"Array"),
        Value::Object(_) => Err(ValueFault::Kind),
    }
}

/// The key that a value stands for. `Kind` comes exactly at an array or an object.
pub fn key_of(alloc: Global, value: &Value) -> Result<Key, ValueFault>
    ensures { Gives (spec.key_of (data_of value.now)) result }
{
    match value {
        Value::Null => Ok(Key::Text(ByteText::new(alloc)?)),
        Value::Bool(b) => Ok(Key::Int(i64::from(*b))),
        Value::Int(n) => Ok(Key::Int(*n)),
        Value::Bytes(text) => text_key(text),
        Value::List(_) => Err(ValueFault::Kind),
        Value::Object(_) => Err(ValueFault::Kind),
    }
}

// The key of a text: a number where the text is its normal form.
fn text_key(text: &ByteText) -> Result<Key, ValueFault>
    ensures { Gives (spec.Ok (spec.text_key (spec.normal_number text.now) text.now)) result }
{
    match normal_number(text.as_slice()) {
        Some(n) => Ok(Key::Int(n)),
        None => Ok(Key::Text(text.clone()?)),
    }
}
