//! The arguments of a load, and its calls.

use crate::plan::Plan;
use order_map::{ByteText, Key, OrderMap};
use php_arguments::{CallFault, push_value};
use php_list_calls::{ListCall, list_call};
use php_values::{ArrayValue, Value};
use std::alloc::Global;

// Numbers that look as if they were drawn.
fn next(drawn: u32) -> u32 {
    drawn.wrapping_mul(1_664_525).wrapping_add(1_013_904_223)
}

// A text of eight letters.
fn letters(alloc: Global, drawn: u32) -> Result<ByteText, CallFault> {
    let mut bytes = Vec::new(alloc);
    let mut left = drawn;
    for _ in 0..8 {
        bytes.push(b'a' + (left >> 28) as u8)?;
        left = left << 4;
    }
    Ok(ByteText::from_vec(alloc, bytes)?)
}

fn array(alloc: Global, map: OrderMap<Value>) -> Result<Value, CallFault> {
    Ok(Value::List(ArrayValue::new(alloc, map)?))
}

// A list of texts.
fn texts(alloc: Global, entries: u32) -> Result<Value, CallFault> {
    let mut map = OrderMap::new(alloc);
    let mut drawn = 1;
    for _ in 0..entries {
        drawn = next(drawn);
        push_value(&mut map, Value::Bytes(letters(alloc, drawn)?))?;
    }
    array(alloc, map)
}

// A list of numbers.
fn numbers(alloc: Global, entries: u32) -> Result<Value, CallFault> {
    let mut map = OrderMap::new(alloc);
    let mut drawn = 1;
    for _ in 0..entries {
        drawn = next(drawn);
        push_value(&mut map, Value::Int(i64::from(drawn)))?;
    }
    array(alloc, map)
}

// An array whose keys are texts.
fn keyed(alloc: Global, entries: u32) -> Result<Value, CallFault> {
    let mut map = OrderMap::new(alloc);
    let mut drawn = 1;
    for _ in 0..entries {
        drawn = next(drawn);
        let _old = map.set(Key::Text(letters(alloc, drawn)?), Value::Int(1))?;
    }
    array(alloc, map)
}

fn whole(alloc: Global, first: Value) -> Result<Vec<Value>, CallFault> {
    let mut args = Vec::new(alloc);
    args.push(first)?;
    Ok(args)
}

fn pair(alloc: Global, first: Value, second: Value) -> Result<Vec<Value>, CallFault> {
    let mut args = whole(alloc, first)?;
    args.push(second)?;
    Ok(args)
}

// What a call is given.
fn arguments(alloc: Global, plan: &Plan) -> Result<Vec<Value>, CallFault> {
    let entries = plan.entries;
    match plan.call {
        ListCall::InArray => pair(alloc, Value::Int(-1), numbers(alloc, entries)?),
        ListCall::ArraySearch => pair(alloc, Value::Int(-1), numbers(alloc, entries)?),
        ListCall::ArrayKeyExists => pair(alloc, Value::Int(0), numbers(alloc, entries)?),
        ListCall::ArrayMerge => pair(
            alloc,
            texts(alloc, entries / 2)?,
            keyed(alloc, entries / 2)?,
        ),
        ListCall::ArraySlice => pair(alloc, texts(alloc, entries)?, Value::Int(1)),
        ListCall::ArrayPush => pair(alloc, numbers(alloc, entries / 2)?, Value::Int(1)),
        ListCall::ArrayUnshift => pair(alloc, numbers(alloc, entries / 2)?, Value::Int(1)),
        ListCall::Range => pair(alloc, Value::Int(1), Value::Int(i64::from(entries))),
        ListCall::ArraySum => whole(alloc, numbers(alloc, entries)?),
        ListCall::Max => whole(alloc, numbers(alloc, entries)?),
        ListCall::Min => whole(alloc, numbers(alloc, entries)?),
        ListCall::Ksort => whole(alloc, keyed(alloc, entries)?),
        ListCall::Krsort => whole(alloc, keyed(alloc, entries)?),
        _ => whole(alloc, texts(alloc, entries)?),
    }
}

fn copies(alloc: Global, args: &[Value]) -> Result<Vec<Value>, CallFault> {
    let mut fresh = Vec::new(alloc);
    for value in args {
        fresh.push(value.clone()?)?;
    }
    Ok(fresh)
}

/// Calls as often as the plan says, each time with the same arguments, and counts the values.
pub fn run(alloc: Global, plan: &Plan) -> Result<u32, CallFault> {
    let args = arguments(alloc, plan)?;
    let mut done: u32 = 0;
    for _ in 0..plan.times {
        let mut fresh = copies(alloc, args.as_slice())?;
        if list_call(alloc, plan.call, fresh.as_mut_slice()).is_ok() {
            done = done.saturating_add(1);
        }
    }
    Ok(done)
}
