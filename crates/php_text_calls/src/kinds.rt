// Calls that convert values and tell their kinds.

ghost use Rattle.std.specs.Prelude.{◌≡◌};
ghost use Rattle.std.specs.List.{list_all};
ghost use Rattle.php_values.specs.Data.{data_of};
ghost use Rattle.php_values.specs.Convert.{is_digit};
ghost use Rattle.php_text_calls.specs.Letters.{all_digits};
ghost use Rattle.php_text_calls.specs.TextCalls as spec;

use crate::arguments::truth_value;
use php_arguments::{CallFault, int_argument, int_row, one, text_row, two};
use php_values::{Value, is_numeric};
use std::alloc::Global;

pub(crate) fn intval(args: &[Value]) -> Result<Value, CallFault>
    ensures { spec.GivesValue (spec.intval (spec.datas args.now)) result }
{
    let value = one(args)?;
    let number = int_row(value)?;
    Ok(Value::Int(number))
}

pub(crate) fn strval(alloc: Global, args: &[Value]) -> Result<Value, CallFault>
    ensures { spec.GivesValue (spec.strval (spec.datas args.now)) result }
{
    let value = one(args)?;
    let text = text_row(alloc, value)?;
    Ok(Value::Bytes(text))
}

fn numeric(value: &Value) -> bool
    ensures { result ≡ spec.numeric (data_of value.now) }
{
    match value {
        Value::Int(_) => true,
        Value::Bytes(text) => is_numeric(text.as_slice()),
        Value::Null => false,
        Value::Bool(_) => false,
        Value::List(_) => false,
        Value::Object(_) => false,
    }
}

fn is_digit(b: u8) -> bool
    ensures { result ≡ is_digit b }
{
    48 <= b && b <= 57
}

fn only_digits(text: &[u8]) -> bool
    ensures { result ≡ list_all is_digit text.now }
{
    text.iter().all(|b| is_digit(*b))
}

fn all_digits(text: &[u8]) -> bool
    ensures { result ≡ all_digits text.now }
{
    if text.is_empty() {
        return false;
    }
    only_digits(text)
}

fn digital(value: &Value) -> bool
    ensures { result ≡ spec.digital (data_of value.now) }
{
    match value {
        Value::Bytes(text) => all_digits(text.as_slice()),
        Value::Null => false,
        Value::Bool(_) => false,
        Value::Int(_) => false,
        Value::List(_) => false,
        Value::Object(_) => false,
    }
}

pub(crate) fn is_numeric_call(args: &[Value]) -> Result<Value, CallFault>
    ensures { spec.GivesValue (spec.tested spec.numeric (spec.datas args.now)) result }
{
    let value = one(args)?;
    truth_value(numeric(value))
}

pub(crate) fn ctype_digit(args: &[Value]) -> Result<Value, CallFault>
    ensures { spec.GivesValue (spec.tested spec.digital (spec.datas args.now)) result }
{
    let value = one(args)?;
    truth_value(digital(value))
}

fn is_int(value: &Value) -> bool
    ensures { result ≡ spec.is_int (data_of value.now) }
{
    matches!(value, Value::Int(_))
}

pub(crate) fn is_int_call(args: &[Value]) -> Result<Value, CallFault>
    ensures { spec.GivesValue (spec.tested spec.is_int (spec.datas args.now)) result }
{
    let value = one(args)?;
    truth_value(is_int(value))
}

fn is_string(value: &Value) -> bool
    ensures { result ≡ spec.is_string (data_of value.now) }
{
    matches!(value, Value::Bytes(_))
}

pub(crate) fn is_string_call(args: &[Value]) -> Result<Value, CallFault>
    ensures { spec.GivesValue (spec.tested spec.is_string (spec.datas args.now)) result }
{
    let value = one(args)?;
    truth_value(is_string(value))
}

fn is_bool(value: &Value) -> bool
    ensures { result ≡ spec.is_bool (data_of value.now) }
{
    matches!(value, Value::Bool(_))
}

pub(crate) fn is_bool_call(args: &[Value]) -> Result<Value, CallFault>
    ensures { spec.GivesValue (spec.tested spec.is_bool (spec.datas args.now)) result }
{
    let value = one(args)?;
    truth_value(is_bool(value))
}

fn is_array(value: &Value) -> bool
    ensures { result ≡ spec.is_array (data_of value.now) }
{
    matches!(value, Value::List(_))
}

pub(crate) fn is_array_call(args: &[Value]) -> Result<Value, CallFault>
    ensures { spec.GivesValue (spec.tested spec.is_array (spec.datas args.now)) result }
{
    let value = one(args)?;
    truth_value(is_array(value))
}

fn is_null(value: &Value) -> bool
    ensures { result ≡ spec.is_null (data_of value.now) }
{
    matches!(value, Value::Null)
}

pub(crate) fn is_null_call(args: &[Value]) -> Result<Value, CallFault>
    ensures { spec.GivesValue (spec.tested spec.is_null (spec.datas args.now)) result }
{
    let value = one(args)?;
    truth_value(is_null(value))
}

fn is_object(value: &Value) -> bool
    ensures { result ≡ spec.is_object (data_of value.now) }
{
    matches!(value, Value::Object(_))
}

pub(crate) fn is_object_call(args: &[Value]) -> Result<Value, CallFault>
    ensures { spec.GivesValue (spec.tested spec.is_object (spec.datas args.now)) result }
{
    let value = one(args)?;
    truth_value(is_object(value))
}

fn quotient(m: i64, n: i64) -> Result<Value, CallFault>
    ensures { spec.GivesValue (spec.quotient m n) result }
{
    if n == 0 {
        return Err(CallFault::Zero);
    }
    match m.checked_div(n) {
        Some(quotient) => Ok(Value::Int(quotient)),
        None => Err(CallFault::Range),
    }
}

pub(crate) fn intdiv(args: &[Value]) -> Result<Value, CallFault>
    ensures { spec.GivesValue (spec.intdiv (spec.datas args.now)) result }
{
    let (first, second) = two(args)?;
    let m = int_argument(first)?;
    let n = int_argument(second)?;
    quotient(m, n)
}
