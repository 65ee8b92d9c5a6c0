// Calls that add values at the ends of an array, or take them off.

ghost use Rattle.std.specs.Prelude.{◌≡◌, ◌++◌, ◌∷◌, [], ◌≤◌, IfOk, OnOk, IsTrue};
ghost use Rattle.order_map.specs.Arrays.{pairs_of, next_of, keys_of};
ghost use Rattle.order_map.specs.Keys.{all_distinct, all_below, spent};
ghost use Rattle.php_values.specs.Data.{array_of, array_next, array_pairs, data_of};
ghost use Rattle.php_arguments.specs.Answers.{datas};
ghost use Rattle.php_list_calls.specs.Items as item;
ghost use Rattle.php_list_calls.specs.Ends as ends;
ghost use Rattle.php_list_calls.specs.ListCalls as spec;

use crate::build::{add_array, add_items, add_value, pass_over};
use crate::first::{behind_first, put_first, take_map};
use crate::look::{count_value, only_array, size};
use order_map::{Key, OrderMap};
use php_arguments::{CallFault, MAX_PAIRS, array_argument, one_and_more, two};
use php_values::{Value, Walk};
use std::alloc::{AllocError, Global};

/// The next key of an array that has no free number key left.
const SPENT: u64 = 1 << 63;

// The next key of an array, 2 to the power of 63 where it is spent.
pub(crate) fn next_number(array: &OrderMap<Value>) -> u64
    ensures value { result ≡ array_next (array_of array.now) }
    ensures within { result ≤ spent }
{
    match array.next_key() {
        None => SPENT,
        Some(next) => next as u64,
    }
}

// Why so many values cannot be added to an array.
#[tactic(auto, using(crate::proofs::Lasts::lack_size, crate::proofs::Lasts::lack_keys, crate::proofs::Lasts::lack_none))]
fn lack(array: &OrderMap<Value>, count: usize) -> Option<CallFault>
    ensures { result ≡ ends.lack (array_of array.now) count }
{
    if count > MAX_PAIRS || size(array) > MAX_PAIRS - count {
        return Some(CallFault::Size);
    }
    if count as u64 > SPENT - next_number(array) {
        return Some(CallFault::Keys);
    }
    None
}

// Adds copies of values under the next keys.
fn add_values(map: &mut OrderMap<Value>, values: &[Value]) -> Result<(), AllocError>
    ensures { OnOk result (array_of map.new ≡ item.with_values (array_of map.old) (datas values.now)) }
{
    for value in values {
        add_value(map, value.clone()?)?;
    }
    Ok(())
}

pub(crate) fn array_push(alloc: Global, args: &mut [Value]) -> Result<Value, CallFault>
    ensures { spec.GivesAfter (spec.array_push (datas args.old)) (datas args.old) (datas args.new) result }
{
    let (first, rest) = one_and_more(args)?;
    let array = array_argument(first)?;
    match lack(array, rest.len()) {
        Some(fault) => return Err(fault),
        None => {}
    }
    let mut map = take_map(alloc, args)?;
    add_values(&mut map, behind_first(args))?;
    let count = size(&map);
    put_first(alloc, args, map)?;
    count_value(count)
}

// Lowers the next key where it is the number behind a key that was the last one.
fn lower_behind(map: &mut OrderMap<Value>, key: &Key)
    requires distinct { IsTrue (all_distinct (keys_of (pairs_of map.old) ++ key.now ∷ [])) }
    requires below { IsTrue (all_below (next_of map.old) (keys_of (pairs_of map.old) ++ key.now ∷ [])) }
    ensures pairs { pairs_of map.new ≡ pairs_of map.old }
    ensures next { next_of map.new ≡ ends.next_without key.now (next_of map.old) }
{
    let Key::Int(n) = key else {
        return;
    };
    let Some(next) = map.next_key() else {
        return;
    };
    if *n >= 0 && next - 1 == *n {
        map.lower_next();
    }
}

// Takes off the last value of an array, null where it has none.
fn pop_value(map: &mut OrderMap<Value>) -> Value
    ensures value { data_of result ≡ ends.last_value (array_pairs (array_of map.old)) }
    ensures after { array_of map.new ≡ ends.popped (array_of map.old) }
{
    let _count = map.len();
    match map.pop() {
        None => Value::Null,
        Some((key, value)) => {
            lower_behind(map, &key);
            value
        }
    }
}

pub(crate) fn array_pop(alloc: Global, args: &mut [Value]) -> Result<Value, CallFault>
    ensures { spec.GivesAfter (spec.array_pop (datas args.old)) (datas args.old) (datas args.new) result }
{
    let _array = only_array(args)?;
    let mut map = take_map(alloc, args)?;
    let value = pop_value(&mut map);
    put_first(alloc, args, map)?;
    Ok(value)
}

// The first value of an array, null where it has none.
fn first_value(array: &OrderMap<Value>) -> Result<Value, AllocError>
    ensures { IfOk result (λ v. data_of v ≡ ends.first_value (item.items (array_of array.now))) }
{
    let mut walk = Walk::new(array);
    match walk.next() {
        None => Ok(Value::Null),
        Some((_, value)) => Ok(value.clone()?),
    }
}

// An array without its first item, whose number keys are counted anew.
fn shifted(alloc: Global, array: &OrderMap<Value>) -> Result<OrderMap<Value>, AllocError>
    ensures { IfOk result (λ m. array_of m ≡ ends.shifted (array_of array.now)) }
{
    let mut walk = Walk::new(array);
    pass_over(&mut walk, 1);
    let mut map = OrderMap::new(alloc);
    add_items(&mut map, &mut walk, array.len())?;
    Ok(map)
}

pub(crate) fn array_shift(alloc: Global, args: &mut [Value]) -> Result<Value, CallFault>
    ensures { spec.GivesAfter (spec.array_shift (datas args.old)) (datas args.old) (datas args.new) result }
{
    let array = only_array(args)?;
    let value = first_value(array)?;
    let map = shifted(alloc, array)?;
    put_first(alloc, args, map)?;
    Ok(value)
}

// An array with a value before the others, whose number keys are counted anew.
fn unshifted(
    alloc: Global,
    value: &Value,
    array: &OrderMap<Value>,
) -> Result<OrderMap<Value>, CallFault>
    ensures { spec.GivesMap (ends.unshifted (data_of value.now) (array_of array.now)) result }
{
    if array.len() >= MAX_PAIRS {
        return Err(CallFault::Size);
    }
    let mut map = OrderMap::new(alloc);
    add_value(&mut map, value.clone()?)?;
    add_array(&mut map, array)?;
    Ok(map)
}

pub(crate) fn array_unshift(alloc: Global, args: &mut [Value]) -> Result<Value, CallFault>
    ensures { spec.GivesAfter (spec.array_unshift (datas args.old)) (datas args.old) (datas args.new) result }
{
    let (first, value) = two(args)?;
    let array = array_argument(first)?;
    let map = unshifted(alloc, value, array)?;
    let count = size(&map);
    put_first(alloc, args, map)?;
    count_value(count)
}
