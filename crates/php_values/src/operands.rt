// Arithmetic on numbers and texts.

ghost use Rattle.std.specs.Prelude.{◌≡◌, ◌+ℤ◌, ◌-ℤ◌, ◌*ℤ◌};
ghost use Rattle.php_values.specs.Data.{data_of};
ghost use Rattle.php_values.specs.Answers.{GivesData};
ghost use Rattle.php_values.specs.Arithmetic as spec;

use crate::convert::{number_or_zero, to_text, zero_or_one};
use crate::fault::ValueFault;
use crate::number::leading_number;
use crate::value::Value;
use order_map::ByteText;
use std::alloc::Global;

/// The greatest length of a text, in bytes.
const MAX_TEXT_BYTES: usize = 1 << 20;

// The number of an operand.
fn operand(value: &Value) -> Result<i64, ValueFault>
    ensures { result ≡ spec.operand (data_of value.now) }
{
    match value {
        Value::Null => Ok(0),
        Value::Bool(b) => Ok(zero_or_one(*b)),
        Value::Int(n) => Ok(*n),
        Value::Bytes(text) => number_or_zero(leading_number(text.as_slice())),
        Value::List(_) => Err(ValueFault::Kind),
        Value::Object(_) => Err(ValueFault::Kind),
    }
}

#[tactic(auto, using(crate::proofs::Fitting::fitting_some, crate::proofs::Fitting::fitting_none))]
fn sum(m: i64, n: i64) -> Result<Value, ValueFault>
    ensures { GivesData (spec.fitting (m +ℤ n)) result }
{
    match m.checked_add(n) {
        Some(n) => Ok(Value::Int(n)),
        None => Err(ValueFault::Float),
    }
}

#[tactic(auto, using(crate::proofs::Fitting::fitting_some, crate::proofs::Fitting::fitting_none))]
fn difference(m: i64, n: i64) -> Result<Value, ValueFault>
    ensures { GivesData (spec.fitting (m -ℤ n)) result }
{
    match m.checked_sub(n) {
        Some(n) => Ok(Value::Int(n)),
        None => Err(ValueFault::Float),
    }
}

#[tactic(auto, using(crate::proofs::Fitting::fitting_some, crate::proofs::Fitting::fitting_none))]
fn product(m: i64, n: i64) -> Result<Value, ValueFault>
    ensures { GivesData (spec.fitting (m *ℤ n)) result }
{
    match m.checked_mul(n) {
        Some(n) => Ok(Value::Int(n)),
        None => Err(ValueFault::Float),
    }
}

fn quotient(m: i64, n: i64) -> Result<Value, ValueFault>
    ensures { GivesData (spec.quotient m n) result }
{
    if n == 0 {
        return Err(ValueFault::Float);
    }
    if n == -1 {
        return difference(0, m);
    }
    if m % n != 0 {
        return Err(ValueFault::Float);
    }
    Ok(Value::Int(m / n))
}

fn remainder(m: i64, n: i64) -> Result<Value, ValueFault>
    ensures { GivesData (spec.remainder m n) result }
{
    if n == 0 {
        return Err(ValueFault::Zero);
    }
    if n == -1 {
        return Ok(Value::Int(0));
    }
    Ok(Value::Int(m % n))
}

/// The sum of two values that are not both arrays.
pub(crate) fn add_numbers(a: &Value, b: &Value) -> Result<Value, ValueFault>
    ensures { GivesData (spec.with_operands (data_of a.now) (data_of b.now) spec.sum) result }
{
    let m = operand(a)?;
    let n = operand(b)?;
    sum(m, n)
}

pub(crate) fn subtract(a: &Value, b: &Value) -> Result<Value, ValueFault>
    ensures { GivesData (spec.with_operands (data_of a.now) (data_of b.now) spec.difference) result }
{
    let m = operand(a)?;
    let n = operand(b)?;
    difference(m, n)
}

pub(crate) fn multiply(a: &Value, b: &Value) -> Result<Value, ValueFault>
    ensures { GivesData (spec.with_operands (data_of a.now) (data_of b.now) spec.product) result }
{
    let m = operand(a)?;
    let n = operand(b)?;
    product(m, n)
}

pub(crate) fn divide(a: &Value, b: &Value) -> Result<Value, ValueFault>
    ensures { GivesData (spec.with_operands (data_of a.now) (data_of b.now) spec.quotient) result }
{
    let m = operand(a)?;
    let n = operand(b)?;
    quotient(m, n)
}

pub(crate) fn rest_of(a: &Value, b: &Value) -> Result<Value, ValueFault>
    ensures { GivesData (spec.with_operands (data_of a.now) (data_of b.now) spec.remainder) result }
{
    let m = operand(a)?;
    let n = operand(b)?;
    remainder(m, n)
}

pub(crate) fn join(alloc: Global, a: &Value, b: &Value) -> Result<Value, ValueFault>
    ensures { GivesData (spec.joined (data_of a.now) (data_of b.now)) result }
{
    let s = to_text(alloc, a)?;
    let t = to_text(alloc, b)?;
    join_texts(s, &t)
}

fn join_texts(s: ByteText, t: &ByteText) -> Result<Value, ValueFault>
    ensures { GivesData (spec.sized_join s t.now) result }
{
    if s.len() > MAX_TEXT_BYTES || t.len() > MAX_TEXT_BYTES - s.len() {
        return Err(ValueFault::Size);
    }
    let mut joined = s;
    joined.extend_from_slice(t.as_slice())?;
    Ok(Value::Bytes(joined))
}
