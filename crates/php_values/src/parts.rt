// Arrays that are taken apart without a recursion.

use crate::value::Value;
use order_map::{OrderMap, Values};
use std::mem::ManuallyDrop;

// The map that a value owns, where it is an array that no copy shares.
fn owned_map(value: Value) -> Option<OrderMap<Value>> {
    match value {
        Value::List(array) => array.into_own(),
        Value::Bytes(text) => {
            drop(text);
            None
        }
        Value::Null => None,
        Value::Bool(_) => None,
        Value::Int(_) => None,
        Value::Object(_) => None,
    }
}

// Lets a map and all its values go, by a loop with a stack of its own.
pub(crate) fn take_apart(map: OrderMap<Value>) {
    let mut above: Vec<Values<Value>> = Vec::new(map.allocator());
    let mut values = map.into_values();
    // more turns than there can be values
    for _ in 0..u64::MAX {
        match values.next() {
            Some((value, rest)) => {
                values = rest;
                if let Some(map) = owned_map(value) {
                    match above.push(values) {
                        Ok(()) => {}
                        Err(full) => leak(full.value),
                    }
                    values = map.into_values();
                }
            }
            None => match above.pop() {
                Some(rest) => values = rest,
                None => {
                    above.into_iter().destroy_empty();
                    return;
                }
            },
        }
    }
    leak(values);
    leak(above);
}

// Lets something go without its drop, which would be a recursion. Its memory is not freed: this is for want of memory.
fn leak<T>(value: T) {
    let _kept = unsafe { ManuallyDrop::new_unchecked(value) };
}
