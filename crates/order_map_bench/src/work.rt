//! The work itself.

use crate::plan::{Plan, Task};
use order_map::{ByteText, Key, OrderMap};
use std::alloc::{AllocError, Global};

fn keys(alloc: Global, plan: &Plan) -> Result<Vec<Key>, AllocError> {
    let mut keys = Vec::new(alloc);
    for n in 0..plan.keys {
        if plan.texts {
            let text = format!(in alloc; "item {n}")?;
            keys.push(Key::Text(ByteText::from_slice(alloc, text.as_bytes())?))?;
        } else {
            keys.push(Key::Int(i64::from(n)))?;
        }
    }
    Ok(keys)
}

fn built(alloc: Global, keys: &[Key]) -> Result<OrderMap<u64>, AllocError> {
    let mut map = OrderMap::new(alloc);
    let mut value = 0u64;
    for key in keys {
        let _old = map.set(key.clone()?, value)?;
        value = value.wrapping_add(1);
    }
    Ok(map)
}

fn appended(alloc: Global, count: u32) -> Result<OrderMap<u64>, AllocError> {
    let mut map = OrderMap::new(alloc);
    for n in 0..count {
        if map.append(u64::from(n)).is_err() {
            return Err(AllocError);
        }
    }
    Ok(map)
}

// The sum of the values of as many keys as there are, drawn at random.
fn looked_up(map: &OrderMap<u64>, keys: &[Key]) -> u64 {
    let mut draw = 1u64;
    let mut sum = 0u64;
    for _turn in 0..keys.len() {
        draw = draw
            .wrapping_mul(0x5851_f42d_4c95_7f2d)
            .wrapping_add(0x1405_7b7e_f767_814f);
        let i = (draw >> 33) as usize % keys.len();
        if let Some(value) = map.get(&keys[i]) {
            sum = sum.wrapping_add(*value);
        }
    }
    sum
}

// The sum of the values along a walk.
fn walked(map: &OrderMap<u64>) -> u64 {
    let mut sum = 0u64;
    let mut place = map.first();
    for _number in 0..map.len() {
        let Some(at) = place else {
            return sum;
        };
        let (_key, value) = map.pair(at);
        sum = sum.wrapping_add(*value);
        place = map.next_of(at);
    }
    sum
}

fn emptied(map: &mut OrderMap<u64>, keys: &[Key]) -> u64 {
    let mut sum = 0u64;
    for key in keys {
        if let Some(value) = map.remove(key) {
            sum = sum.wrapping_add(value);
        }
    }
    sum
}

fn turn(alloc: Global, plan: &Plan, keys: &[Key], map: &OrderMap<u64>) -> Result<u64, AllocError> {
    match plan.task {
        Task::Keys => Ok(0),
        Task::Build => Ok(built(alloc, keys)?.len() as u64),
        Task::Append => Ok(appended(alloc, plan.keys)?.len() as u64),
        Task::Look => Ok(looked_up(map, keys)),
        Task::Walk => Ok(walked(map)),
        Task::Remove => {
            let mut map = built(alloc, keys)?;
            Ok(emptied(&mut map, keys))
        }
        Task::Copy => Ok(map.clone()?.len() as u64),
    }
}

/// Does the work of a plan, and gives what it counted.
pub fn run(alloc: Global, plan: &Plan) -> Result<u64, AllocError> {
    let keys = keys(alloc, plan)?;
    let map = match plan.task {
        Task::Look | Task::Walk | Task::Copy => built(alloc, keys.as_slice())?,
        _ => OrderMap::new(alloc),
    };
    let mut counted = 0u64;
    for _round in 0..plan.rounds {
        counted = counted.wrapping_add(turn(alloc, plan, keys.as_slice(), &map)?);
    }
    Ok(counted)
}
