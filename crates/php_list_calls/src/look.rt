// Calls that look into an array.

ghost use Rattle.std.specs.Prelude.{◌≡◌, pos};
ghost use Rattle.php_values.specs.Data.{data_of, array_of, array_pairs, count_of, int};
ghost use Rattle.php_list_calls.specs.Items.{items};
ghost use Rattle.php_list_calls.specs.Looking as look;
ghost use Rattle.php_list_calls.specs.ListCalls as spec;
ghost use Rattle.php_arguments.specs.Arguments.{optional};

use crate::build::key_value;
use order_map::{Key, OrderMap};
use php_arguments::{CallFault, array_argument, one, two, two_or_three};
use php_values::{Value, Walk, key_of, loose_eq, strict_eq, truth};
use std::alloc::Global;

// The only argument, an array.
pub(crate) fn only_array(args: &[Value]) -> Result<&OrderMap<Value>, CallFault>
    ensures { spec.GivesArray (spec.only_array (spec.datas args.now)) result }
{
    let value = one(args)?;
    array_argument(value)
}

// A count as a value. One that is no number of 64 bits does not fit into memory either.
pub(crate) fn count_value(count: usize) -> Result<Value, CallFault>
    ensures { spec.GivesValue (spec.Ok (int (pos count))) result }
{
    match i64::try_from(count) {
        Ok(n) => Ok(Value::Int(n)),
        Err(_) => Err(CallFault::Memory),
    }
}

// How many items an array has.
pub(crate) fn size(array: &OrderMap<Value>) -> usize
    ensures { result ≡ count_of (array_pairs (array_of array.now)) }
{
    array.len()
}

pub(crate) fn count(args: &[Value]) -> Result<Value, CallFault>
    ensures { spec.GivesValue (spec.count (spec.datas args.now)) result }
{
    let array = only_array(args)?;
    count_value(size(array))
}

// A truth, or what stands for it where it is left out.
fn truth_or(default: bool, value: Option<&Value>) -> bool
    ensures { result ≡ look.truth_or default (optional value.entry) }
{
    match value {
        None => default,
        Some(value) => truth(value),
    }
}

// Whether two values are equal by `===`, or else by `==`.
fn alike(alloc: Global, strict: bool, a: &Value, b: &Value) -> Result<bool, CallFault>
    ensures { spec.GivesAnswer (look.alike strict (data_of a.now) (data_of b.now)) result }
{
    if strict {
        let same = strict_eq(alloc, a, b)?;
        return Ok(same);
    }
    let equal = loose_eq(alloc, a, b)?;
    Ok(equal)
}

// The key of the first value that is like another.
fn key_of_value<'a>(
    alloc: Global,
    value: &Value,
    array: &'a OrderMap<Value>,
    strict: bool,
) -> Result<Option<&'a Key>, CallFault>
    ensures { spec.GivesKey (look.key_where (look.alike strict (data_of value.now)) (items (array_of array.now))) result }
{
    let mut walk = Walk::new(array);
    while let Some((key, other)) = walk.next() {
        let found = alike(alloc, strict, value, other)?;
        if found {
            return Ok(Some(key));
        }
    }
    Ok(None)
}

// The key of a value in an array.
fn sought<'a>(alloc: Global, args: &'a [Value]) -> Result<Option<&'a Key>, CallFault>
    ensures { spec.GivesKey (spec.sought (spec.datas args.now)) result }
{
    let (value, second, third) = two_or_three(args)?;
    let array = array_argument(second)?;
    let strict = truth_or(false, third);
    key_of_value(alloc, value, array, strict)
}

pub(crate) fn in_array(alloc: Global, args: &[Value]) -> Result<Value, CallFault>
    ensures { spec.GivesValue (spec.in_array (spec.datas args.now)) result }
{
    let key = sought(alloc, args)?;
    Ok(Value::Bool(key.is_some()))
}

pub(crate) fn array_search(alloc: Global, args: &[Value]) -> Result<Value, CallFault>
    ensures { spec.GivesValue (spec.array_search (spec.datas args.now)) result }
{
    match sought(alloc, args)? {
        None => Ok(Value::Bool(false)),
        Some(key) => Ok(key_value(key)?),
    }
}

// Whether an array has a key.
fn has_key(key: &Key, array: &OrderMap<Value>) -> bool
    ensures { result ≡ spec.has_key key.now (array_of array.now) }
{
    array.get(key).is_some()
}

pub(crate) fn array_key_exists(alloc: Global, args: &[Value]) -> Result<Value, CallFault>
    ensures { spec.GivesValue (spec.array_key_exists (spec.datas args.now)) result }
{
    let (first, second) = two(args)?;
    let key = key_of(alloc, first)?;
    let array = array_argument(second)?;
    Ok(Value::Bool(has_key(&key, array)))
}
