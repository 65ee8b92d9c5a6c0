// Calls that make arrays of the parts of others.

ghost use Rattle.std.specs.Prelude.{◌≡◌, List, length, map, drop, reverse, OnOk, IfOk, IfErr, ◌≢◌};
ghost use Rattle.order_map.specs.Arrays.{pairs_of};
ghost use Rattle.php_values.specs.Data.{data_of, array_of, array};
ghost use Rattle.php_values.specs.Walks.{rest_of};
ghost use Rattle.php_values.specs.Arithmetic.{sized_array};
ghost use Rattle.php_arguments.specs.Results.{array_list};
ghost use Rattle.php_list_calls.specs.Items as item;
ghost use Rattle.php_list_calls.specs.Looking as look;
ghost use Rattle.php_list_calls.specs.ListCalls as spec;

use crate::build::{add_array, add_item, add_items, add_value, array_value, key_value, pass_over};
use crate::look::only_array;
use crate::pairs::pairs_in;
use order_map::OrderMap;
use php_arguments::{
    CallFault, MAX_PAIRS, array_argument, int_argument, int_if_given, one_and_more, two_or_three,
};
use php_values::{Value, Walk};
use std::alloc::{AllocError, Global};

// The keys of an array as a list.
fn keys_list(alloc: Global, array: &OrderMap<Value>) -> Result<OrderMap<Value>, AllocError>
    ensures { IfOk result (λ m. array_of m ≡ array_list (map (λ e. item.key_value e.0) (item.items (array_of array.now)))) }
{
    let mut list = OrderMap::new(alloc);
    let mut walk = Walk::new(array);
    while let Some((key, _)) = walk.next() {
        add_value(&mut list, key_value(key)?)?;
    }
    Ok(list)
}

pub(crate) fn array_keys(alloc: Global, args: &[Value]) -> Result<Value, CallFault>
    ensures { spec.GivesValue (spec.array_keys (spec.datas args.now)) result }
{
    let array = only_array(args)?;
    let list = keys_list(alloc, array)?;
    array_value(alloc, list)
}

// The values of an array as a list.
fn values_list(alloc: Global, array: &OrderMap<Value>) -> Result<OrderMap<Value>, AllocError>
    ensures { IfOk result (λ m. array_of m ≡ array_list (item.values_of (item.items (array_of array.now)))) }
{
    let mut list = OrderMap::new(alloc);
    let mut walk = Walk::new(array);
    while let Some((_, value)) = walk.next() {
        add_value(&mut list, value.clone()?)?;
    }
    Ok(list)
}

pub(crate) fn array_values(alloc: Global, args: &[Value]) -> Result<Value, CallFault>
    ensures { spec.GivesValue (spec.array_values (spec.datas args.now)) result }
{
    let array = only_array(args)?;
    let list = values_list(alloc, array)?;
    array_value(alloc, list)
}

// Adds the items of all arrays.
fn add_arrays(map: &mut OrderMap<Value>, args: &[Value]) -> Result<(), CallFault>
    ensures { spec.GivesChanged (spec.merged (array_of map.old) (spec.datas args.now)) (array_of map.new) result }
{
    for value in args {
        let array = array_argument(value)?;
        add_array(map, array)?;
    }
    Ok(())
}

// An array as a value, where it is not too long.
fn sized_value(alloc: Global, map: OrderMap<Value>) -> Result<Value, CallFault>
    ensures { spec.GivesValue (spec.as_call (sized_array (array_of map))) result }
{
    if map.len() > MAX_PAIRS {
        return Err(CallFault::Size);
    }
    array_value(alloc, map)
}

pub(crate) fn array_merge(alloc: Global, args: &[Value]) -> Result<Value, CallFault>
    ensures { spec.GivesValue (spec.array_merge (spec.datas args.now)) result }
{
    let (_first, _rest) = one_and_more(args)?;
    let mut map = OrderMap::new(alloc);
    add_arrays(&mut map, args)?;
    sized_value(alloc, map)
}

fn slice_start(count: usize, start: i64) -> usize
    ensures { result ≡ look.slice_start count start }
{
    if start < 0 {
        return count.saturating_sub(start.unsigned_abs() as usize);
    }
    start as usize
}

fn slice_count(left: usize, count: Option<i64>) -> usize
    ensures { result ≡ look.slice_count left count }
{
    match count {
        None => left,
        Some(count) => {
            if count < 0 {
                return left.saturating_sub(count.unsigned_abs() as usize);
            }
            count as usize
        }
    }
}

fn slice(
    alloc: Global,
    array: &OrderMap<Value>,
    start: i64,
    count: Option<i64>,
) -> Result<OrderMap<Value>, AllocError>
    ensures { IfOk result (λ m. array_of m ≡ item.renumbered (look.slice (item.items (array_of array.now)) start count)) }
{
    let len = array.len();
    let first = slice_start(len, start);
    let left = len.saturating_sub(first);
    let many = slice_count(left, count);
    let mut walk = Walk::new(array);
    pass_over(&mut walk, first);
    let mut map = OrderMap::new(alloc);
    add_items(&mut map, &mut walk, many)?;
    Ok(map)
}

pub(crate) fn array_slice(alloc: Global, args: &[Value]) -> Result<Value, CallFault>
    ensures { spec.GivesValue (spec.array_slice (spec.datas args.now)) result }
{
    let (first, second, third) = two_or_three(args)?;
    let array = array_argument(first)?;
    let start = int_argument(second)?;
    let count = int_if_given(third)?;
    let slice = slice(alloc, array, start, count)?;
    array_value(alloc, slice)
}

// The items of an array in reverse.
fn reversed(alloc: Global, array: &OrderMap<Value>) -> Result<OrderMap<Value>, AllocError>
    ensures { IfOk result (λ m. array_of m ≡ item.renumbered (reverse (item.items (array_of array.now)))) }
{
    let mut pairs = pairs_in(alloc, array)?;
    let mut map = OrderMap::new(alloc);
    while let Some(pair) = pairs.pop() {
        add_item(&mut map, pair.key, pair.value)?;
    }
    Ok(map)
}

pub(crate) fn array_reverse(alloc: Global, args: &[Value]) -> Result<Value, CallFault>
    ensures { spec.GivesValue (spec.array_reverse (spec.datas args.now)) result }
{
    let array = only_array(args)?;
    let reversed = reversed(alloc, array)?;
    array_value(alloc, reversed)
}
