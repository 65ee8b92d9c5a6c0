// Calls on the numbers of arrays.

ghost use Rattle.std.specs.Prelude.{◌≡◌, ◌+ℤ◌, pos, IfOk, OnOk};
ghost use Rattle.php_values.specs.Data.{array_of, data_of, int};
ghost use Rattle.php_values.specs.Walks.{rest_of};
ghost use Rattle.php_arguments.specs.Results.{array_list};
ghost use Rattle.php_list_calls.specs.Items.{items, items_of, values_of, with_next};
ghost use Rattle.php_list_calls.specs.Numbers as num;
ghost use Rattle.php_list_calls.specs.ListCalls as spec;

use crate::build::{add_value, array_value};
use crate::look::only_array;
use order_map::OrderMap;
use php_arguments::{CallFault, MAX_PAIRS, int_argument, two};
use php_values::{Value, Walk};
use std::alloc::{AllocError, Global};

/// Which one of some numbers is wanted.
#[derive(Clone, Copy, Debug, PartialEq, Eq)]
pub(crate) enum Extreme {
    Greatest,
    Least,
}

/// Which way numbers follow each other.
#[derive(Clone, Copy, Debug, PartialEq, Eq)]
pub(crate) enum Direction {
    Up,
    Down,
}

#[tactic(auto, using(crate::proofs::Wholes::whole_some, crate::proofs::Wholes::whole_none))]
fn sum(m: i64, n: i64) -> Result<i64, CallFault>
    ensures { spec.GivesAnswer (num.whole (m +ℤ n)) result }
{
    match m.checked_add(n) {
        Some(sum) => Ok(sum),
        None => Err(CallFault::Float),
    }
}

// The sum of an array's values.
fn sum_of(array: &OrderMap<Value>) -> Result<i64, CallFault>
    ensures { spec.GivesAnswer (num.summed (pos 0) (values_of (items (array_of array.now)))) result }
{
    let mut walk = Walk::new(array);
    let mut total = 0;
    while let Some((_, value)) = walk.next() {
        let number = int_argument(value)?;
        total = sum(total, number)?;
    }
    Ok(total)
}

pub(crate) fn array_sum(args: &[Value]) -> Result<Value, CallFault>
    ensures { spec.GivesValue (spec.array_sum (spec.datas args.now)) result }
{
    let array = only_array(args)?;
    let sum = sum_of(array)?;
    Ok(Value::Int(sum))
}

// A value that is a number.
fn number(value: &Value) -> Result<i64, CallFault>
    ensures { result ≡ num.number (data_of value.now) }
{
    match value {
        Value::Int(n) => Ok(*n),
        Value::Null => Err(CallFault::Sort),
        Value::Bool(_) => Err(CallFault::Sort),
        Value::Bytes(_) => Err(CallFault::Sort),
        Value::List(_) => Err(CallFault::Sort),
        Value::Object(_) => Err(CallFault::Sort),
    }
}

fn better(way: Extreme, m: i64, n: i64) -> i64
    ensures { result ≡ num.better way m n }
{
    match way {
        Extreme::Greatest => { if m < n { n } else { m } }
        Extreme::Least => { if n < m { n } else { m } }
    }
}

// The best of a number and those that are left of a walk.
fn best(way: Extreme, first: i64, walk: &mut Walk<'_>) -> Result<i64, CallFault>
    ensures { spec.GivesAnswer (num.best way first (values_of (items_of (rest_of walk.old)))) result }
{
    let mut found = first;
    while let Some((_, value)) = walk.next() {
        let other = number(value)?;
        found = better(way, found, other);
    }
    Ok(found)
}

// The best of all that are left of a walk.
fn best_left(way: Extreme, walk: &mut Walk<'_>) -> Result<Value, CallFault>
    ensures { spec.GivesValue (num.best_of way (values_of (items_of (rest_of walk.old)))) result }
{
    match walk.next() {
        None => Ok(Value::Bool(false)),
        Some((_, value)) => {
            let first = number(value)?;
            let found = best(way, first, walk)?;
            Ok(Value::Int(found))
        }
    }
}

fn best_of(way: Extreme, array: &OrderMap<Value>) -> Result<Value, CallFault>
    ensures { spec.GivesValue (num.best_of way (values_of (items (array_of array.now)))) result }
{
    let mut walk = Walk::new(array);
    best_left(way, &mut walk)
}

pub(crate) fn extreme_call(way: Extreme, args: &[Value]) -> Result<Value, CallFault>
    ensures { spec.GivesValue (spec.extreme_call way (spec.datas args.now)) result }
{
    let array = only_array(args)?;
    best_of(way, array)
}

// The number that is so far from another. One that is outside 64 bits is not within memory either.
fn away(direction: Direction, from: i64, far: usize) -> Result<i64, AllocError>
    ensures { IfOk result (λ n. n ≡ num.away direction from far) }
{
    let Ok(far) = i64::try_from(far) else {
        return Err(AllocError);
    };
    let number = match direction {
        Direction::Up => from.checked_add(far),
        Direction::Down => from.checked_sub(far),
    };
    match number {
        Some(number) => Ok(number),
        None => Err(AllocError),
    }
}

// Adds the number that is so far from another.
fn add_away(
    list: &mut OrderMap<Value>,
    direction: Direction,
    from: i64,
    far: usize,
) -> Result<(), AllocError>
    ensures { OnOk result (array_of list.new ≡ with_next (int (num.away direction from far)) (array_of list.old)) }
{
    let number = away(direction, from, far)?;
    add_value(list, Value::Int(number))
}

// So many numbers one after another.
fn run(
    alloc: Global,
    direction: Direction,
    from: i64,
    count: usize,
) -> Result<OrderMap<Value>, AllocError>
    ensures { IfOk result (λ m. array_of m ≡ array_list (num.run direction from 0 count)) }
{
    let mut list = OrderMap::new(alloc);
    for far in 0..count {
        add_away(&mut list, direction, from, far)?;
    }
    Ok(list)
}

fn towards(m: i64, n: i64) -> Direction
    ensures { result ≡ num.towards m n }
{
    if n < m {
        Direction::Down
    } else {
        Direction::Up
    }
}

fn range(alloc: Global, m: i64, n: i64) -> Result<Value, CallFault>
    ensures { spec.GivesValue (num.range m n) result }
{
    let distance = m.abs_diff(n) as usize;
    if distance >= MAX_PAIRS {
        return Err(CallFault::Size);
    }
    let list = run(alloc, towards(m, n), m, distance + 1)?;
    array_value(alloc, list)
}

pub(crate) fn range_call(alloc: Global, args: &[Value]) -> Result<Value, CallFault>
    ensures { spec.GivesValue (spec.range_call (spec.datas args.now)) result }
{
    let (first, second) = two(args)?;
    let m = int_argument(first)?;
    let n = int_argument(second)?;
    range(alloc, m, n)
}
