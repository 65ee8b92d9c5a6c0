//! The loads.

use crate::plan::{Plan, Work};
use order_map::{ByteText, Key, OrderMap};
use php_values::{ArrayValue, Value};
use session_book::{
    SessionId, SessionValue, from_array, id_text, read_id, size_of_session, to_array,
};
use std::alloc::{AllocError, Global};

const LAST: &[u8] = b"user";

/// A pair of a session of a small application: a number at a number, or a text of 32 bytes at a text.
fn set_pair(alloc: Global, map: &mut OrderMap<Value>, number: u32) -> Result<(), AllocError> {
    let n = i64::from(number);
    if number % 2 == 0 {
        map.set(Key::Int(n), Value::Int(n))?;
        return Ok(());
    }
    let name = format!(in alloc; "item{number}")?;
    let key = ByteText::from_slice(alloc, name.as_bytes())?;
    let text = ByteText::from_slice(alloc, b"the text of a pair of 32 bytes..")?;
    map.set(Key::Text(key), Value::Bytes(text))?;
    Ok(())
}

/// An array of so many pairs, of which each sixteenth stands in a list inside, and a user.
fn array(alloc: Global, pairs: u32) -> Result<ArrayValue, AllocError> {
    let mut map = OrderMap::new(alloc);
    for number in 0..pairs {
        if number % 16 == 0 {
            let mut inner = OrderMap::new(alloc);
            set_pair(alloc, &mut inner, number)?;
            let list = ArrayValue::new(alloc, inner)?;
            map.set(Key::Int(i64::from(number)), Value::List(list))?;
        } else {
            set_pair(alloc, &mut map, number)?;
        }
    }
    let user = ByteText::from_slice(alloc, b"anna")?;
    map.set(
        Key::Text(ByteText::from_slice(alloc, LAST)?),
        Value::Bytes(user),
    )?;
    ArrayValue::new(alloc, map)
}

fn ids(alloc: Global, plan: &Plan) -> Result<u64, AllocError> {
    let mut count = 0u64;
    for time in 0..plan.times {
        let id = SessionId {
            slot: (time % 256) as u8,
            draw: u128::from(time) << 90,
        };
        let text = id_text(alloc, &id)?;
        count = count.wrapping_add(u64::from(read_id(text.as_bytes()) == Some(id)));
    }
    Ok(count)
}

fn kept(alloc: Global, array: &ArrayValue, times: u32) -> Result<u64, AllocError> {
    let mut count = 0u64;
    for _ in 0..times {
        let value = from_array(alloc, array)?;
        count = count.wrapping_add(u64::from(value.text_at(b"").is_none()));
    }
    Ok(count)
}

fn back(alloc: Global, value: &SessionValue, times: u32) -> Result<u64, AllocError> {
    let mut count = 0u64;
    for _ in 0..times {
        let array = to_array(alloc, value)?;
        count = count.wrapping_add(u64::from(array.has_pairs()));
    }
    Ok(count)
}

/// Does a load, and tells what was counted: the size of the value, or how often the work was done.
pub fn run(alloc: Global, plan: &Plan) -> Result<u64, AllocError> {
    let array = array(alloc, plan.pairs)?;
    let value = from_array(alloc, &array)?;
    match plan.work {
        Work::Value => Ok(size_of_session(&value)),
        Work::Ids => ids(alloc, plan),
        Work::Keep => kept(alloc, &array, plan.times),
        Work::Back => back(alloc, &value, plan.times),
        Work::Sizes => {
            let mut count = 0u64;
            for _ in 0..plan.times {
                count = count.wrapping_add(u64::from(size_of_session(&value) != 0));
            }
            Ok(count)
        }
        Work::Seek => {
            let mut count = 0u64;
            for _ in 0..plan.times {
                count = count.wrapping_add(u64::from(value.text_at(LAST).is_some()));
            }
            Ok(count)
        }
    }
}
