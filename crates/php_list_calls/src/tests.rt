mod changes;
mod reads;
mod sums;

use crate::{ListCall, list_call, list_call_named};
use order_map::{ByteText, OrderMap};
use php_arguments::CallFault;
use php_values::{ArrayValue, Value, key_of, strict_eq, to_int};
use std::alloc::Global;

// A value that is no array, or an empty one.
#[derive(Clone, Copy)]
pub(crate) enum One {
    Null,
    Truth(bool),
    Int(i64),
    Text(&'static [u8]),
    Nothing,
    Object,
}

// An argument of a row, or the value that the row gives. The keys and values of `Pairs` are written as texts: a number
// as its digits, a value that is a text behind `'`. `Same` is the first argument as it was.
#[derive(Clone, Copy)]
pub(crate) enum Row {
    One(One),
    Ints(&'static [i64]),
    Texts(&'static [&'static [u8]]),
    Pairs(&'static [&'static [u8]], &'static [&'static [u8]]),
    Same,
    Fault(CallFault),
}

fn array(alloc: Global, map: OrderMap<Value>) -> Result<Value, CallFault> {
    Ok(Value::List(ArrayValue::new(alloc, map)?))
}

fn text(alloc: Global, bytes: &[u8]) -> Result<Value, CallFault> {
    Ok(Value::Bytes(ByteText::from_slice(alloc, bytes)?))
}

fn single(alloc: Global, one: One) -> Result<Value, CallFault> {
    match one {
        One::Null => Ok(Value::Null),
        One::Truth(b) => Ok(Value::Bool(b)),
        One::Int(n) => Ok(Value::Int(n)),
        One::Text(t) => text(alloc, t),
        One::Nothing => array(alloc, OrderMap::new(alloc)),
        One::Object => Ok(Value::Object(7)),
    }
}

// A value that is written as a text.
fn written(alloc: Global, bytes: &[u8]) -> Result<Value, CallFault> {
    if bytes == b"null".as_slice() {
        return Ok(Value::Null);
    }
    if bytes == b"true".as_slice() || bytes == b"false".as_slice() {
        return Ok(Value::Bool(bytes == b"true".as_slice()));
    }
    if bytes == b"object".as_slice() {
        return Ok(Value::Object(7));
    }
    if bytes == b"[]".as_slice() {
        return array(alloc, OrderMap::new(alloc));
    }
    match bytes {
        [b'\'', rest @ ..] => text(alloc, rest),
        _ => {
            let digits = text(alloc, bytes)?;
            let number = to_int(&digits)?;
            Ok(Value::Int(number))
        }
    }
}

fn ints(alloc: Global, numbers: &[i64]) -> Result<Value, CallFault> {
    let mut map = OrderMap::new(alloc);
    for n in numbers {
        let _key = map.append(Value::Int(*n)).is_ok();
    }
    array(alloc, map)
}

fn texts(alloc: Global, texts: &[&'static [u8]]) -> Result<Value, CallFault> {
    let mut map = OrderMap::new(alloc);
    for t in texts {
        let _key = map.append(text(alloc, *t)?).is_ok();
    }
    array(alloc, map)
}

fn pairs(
    alloc: Global,
    keys: &[&'static [u8]],
    values: &[&'static [u8]],
) -> Result<Value, CallFault> {
    let mut map = OrderMap::new(alloc);
    for (key, value) in keys.iter().zip(values) {
        let key = key_of(alloc, &text(alloc, *key)?)?;
        let _old = map.set(key, written(alloc, *value)?)?;
    }
    array(alloc, map)
}

pub(crate) fn value(alloc: Global, row: Row) -> Result<Value, CallFault> {
    match row {
        Row::One(item) => single(alloc, item),
        Row::Ints(ns) => ints(alloc, ns),
        Row::Texts(ts) => texts(alloc, ts),
        Row::Pairs(ks, vs) => pairs(alloc, ks, vs),
        Row::Same => Ok(Value::Null),
        Row::Fault(fault) => Err(fault),
    }
}

pub(crate) fn is_row(alloc: Global, given: &Value, row: Row) -> Result<bool, CallFault> {
    let expected = value(alloc, row)?;
    let same = strict_eq(alloc, given, &expected)?;
    Ok(same)
}

fn gives(alloc: Global, answer: &Result<Value, CallFault>, row: Row) -> Result<bool, CallFault> {
    match (answer, row) {
        (Err(a), Row::Fault(b)) => Ok(*a == b),
        (Ok(value), Row::Fault(_)) => Ok(false),
        (Ok(value), _) => is_row(alloc, value, row),
        _ => Ok(false),
    }
}

// Whether the first argument is as a row says, or as it was.
fn leaves(alloc: Global, values: &[Value], args: &[Row], after: Row) -> Result<bool, CallFault> {
    let (Some(value), Some(before)) = (values.first(), args.first()) else {
        return Ok(true);
    };
    match after {
        Row::Same => is_row(alloc, value, *before),
        _ => is_row(alloc, value, after),
    }
}

fn answers(
    alloc: Global,
    name: &str,
    args: &[Row],
    expected: Row,
    after: Row,
) -> Result<bool, CallFault> {
    let Some(call) = list_call_named(name) else {
        return Ok(false);
    };
    let mut values = Vec::new(alloc);
    for row in args {
        values.push(value(alloc, *row)?)?;
    }
    let answer = list_call(alloc, call, values.as_mut_slice());
    let given = gives(alloc, &answer, expected)?;
    let left = leaves(alloc, values.as_slice(), args, after)?;
    Ok(given && left)
}

// Whether the call of a name gives what is expected, and leaves its first argument as a row says.
pub(crate) fn holds(alloc: Global, name: &str, args: &[Row], expected: Row, after: Row) -> bool {
    match answers(alloc, name, args, expected, after) {
        Ok(b) => b,
        Err(_) => false,
    }
}

// A call of one array: what it gives, and the array after it.
pub(crate) fn changed(
    alloc: Global,
    call: ListCall,
    array: Value,
) -> Result<(Value, Value), CallFault> {
    let mut values = Vec::new(alloc);
    values.push(array)?;
    let given = list_call(alloc, call, values.as_mut_slice())?;
    match values.pop() {
        Some(after) => Ok((given, after)),
        None => Err(CallFault::Memory),
    }
}

// An array with one more value.
pub(crate) fn pushed(alloc: Global, array: Value, more: i64) -> Result<Value, CallFault> {
    let mut values = Vec::new(alloc);
    values.push(array)?;
    values.push(Value::Int(more))?;
    let _count = list_call(alloc, ListCall::ArrayPush, values.as_mut_slice())?;
    values.truncate(1);
    match values.pop() {
        Some(after) => Ok(after),
        None => Err(CallFault::Memory),
    }
}
