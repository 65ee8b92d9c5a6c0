// Sums: of two numbers, and of two arrays.

ghost use Rattle.std.specs.Prelude.{◌≡◌, OnOk};
ghost use Rattle.order_map.specs.Arrays.{pairs_of};
ghost use Rattle.php_values.specs.Data.{array, data_of, array_of, data_pairs};
ghost use Rattle.php_values.specs.Answers.{GivesData};
ghost use Rattle.php_values.specs.Arithmetic as spec;

use crate::fault::ValueFault;
use crate::op::ArithOp;
use crate::operands::{add_numbers, divide, join, multiply, rest_of, subtract};
use crate::value::{ArrayValue, Value, copied};
use order_map::{Key, OrderMap};
use std::alloc::{AllocError, Global};

/// The greatest count of pairs of an array.
const MAX_PAIRS: usize = 100_000;

/// The value of an operation on two values. The left one is converted first, and its fault comes first.
pub fn arith(alloc: Global, op: ArithOp, a: &Value, b: &Value) -> Result<Value, ValueFault>
    ensures { GivesData (spec.arithmetic op (data_of a.now) (data_of b.now)) result }
{
    match op {
        ArithOp::Add => add(alloc, a, b),
        ArithOp::Subtract => subtract(a, b),
        ArithOp::Multiply => multiply(a, b),
        ArithOp::Divide => divide(a, b),
        ArithOp::Remainder => rest_of(a, b),
        ArithOp::Join => join(alloc, a, b),
    }
}

fn add(alloc: Global, a: &Value, b: &Value) -> Result<Value, ValueFault>
    ensures { GivesData (spec.sum_of (data_of a.now) (data_of b.now)) result }
{
    match a {
        Value::List(x) => add_to_array(alloc, a, x, b),
        Value::Null => add_numbers(a, b),
        Value::Bool(_) => add_numbers(a, b),
        Value::Int(_) => add_numbers(a, b),
        Value::Bytes(_) => add_numbers(a, b),
        Value::Object(_) => add_numbers(a, b),
    }
}

// The sum of an array and a value.
fn add_to_array(alloc: Global, a: &Value, x: &ArrayValue, b: &Value) -> Result<Value, ValueFault>
    requires { data_of a.now ≡ array (array_of x.now.map.value) }
    ensures { GivesData (spec.sum_of (data_of a.now) (data_of b.now)) result }
{
    match b {
        Value::List(y) => union(alloc, x.map.as_ref(), y.map.as_ref()),
        Value::Null => add_numbers(a, b),
        Value::Bool(_) => add_numbers(a, b),
        Value::Int(_) => add_numbers(a, b),
        Value::Bytes(_) => add_numbers(a, b),
        Value::Object(_) => add_numbers(a, b),
    }
}

// The pairs of an array, and behind them those of another whose keys it lacks.
fn union(alloc: Global, x: &OrderMap<Value>, y: &OrderMap<Value>) -> Result<Value, ValueFault>
    ensures { GivesData (spec.union (array_of x.now) (array_of y.now)) result }
{
    let mut map = copied(x)?;
    add_missing(&mut map, y)?;
    if map.len() > MAX_PAIRS {
        return Err(ValueFault::Size);
    }
    let array = ArrayValue::new(alloc, map)?;
    Ok(Value::List(array))
}

fn add_missing(map: &mut OrderMap<Value>, from: &OrderMap<Value>) -> Result<(), AllocError>
    ensures { OnOk result (array_of map.new ≡ spec.with_missing (array_of map.old) (data_pairs (pairs_of from.now))) }
{
    let mut place = from.first();
    for number in 0..from.len() {
        let Some(at) = place else {
            return Ok(());
        };
        let (key, value) = from.pair(at);
        add_if_missing(map, key, value)?;
        place = from.next_of(at);
    }
    Ok(())
}

fn add_if_missing(map: &mut OrderMap<Value>, key: &Key, value: &Value) -> Result<(), AllocError>
    ensures { OnOk result (array_of map.new ≡ spec.added_if_missing (spec.value_in key.now (array_of map.old)) key.now (data_of value.now) (array_of map.old)) }
{
    if map.get(key).is_some() {
        return Ok(());
    }
    let key = key.clone()?;
    let value = value.clone()?;
    let _none = map.set(key, value)?;
    Ok(())
}
