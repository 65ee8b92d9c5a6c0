// The first argument, which a call may change.

ghost use Rattle.std.specs.Prelude.{◌≡◌, drop, IfOk, OnOk};
ghost use Rattle.php_values.specs.Data.{array_of, array, data_of, null};
ghost use Rattle.php_arguments.specs.Answers.{datas};
ghost use Rattle.php_list_calls.specs.Firsts as firsts;

use order_map::OrderMap;
use php_values::{ArrayValue, Value, copied};
use std::alloc::{AllocError, Global};
use std::mem;
use std::rc::Rc;

// The map of an array, copied where another value shares it.
fn own_map(alloc: Global, array: ArrayValue) -> Result<OrderMap<Value>, AllocError>
    ensures { IfOk result (λ m. array_of m ≡ array_of array.map.value) }
{
    let mut array = array;
    if let Some(map) = Rc::get_mut(&mut array.map) {
        return Ok(mem::replace(map, OrderMap::new(alloc)));
    }
    copied(array.map.as_ref())
}

// The map of a value; one that is no array counts as an empty one.
fn map_of(alloc: Global, value: Value) -> Result<OrderMap<Value>, AllocError>
    ensures { IfOk result (λ m. array_of m ≡ firsts.array_in (data_of value)) }
{
    match value {
        Value::List(array) => own_map(alloc, array),
        Value::Bytes(text) => {
            drop(text);
            Ok(OrderMap::new(alloc))
        }
        Value::Null => Ok(OrderMap::new(alloc)),
        Value::Bool(_) => Ok(OrderMap::new(alloc)),
        Value::Int(_) => Ok(OrderMap::new(alloc)),
        Value::Object(_) => Ok(OrderMap::new(alloc)),
    }
}

// Puts another value in the place of the first argument, which is given back.
fn exchange_first(args: &mut [Value], value: Value) -> Value
    ensures first { data_of result ≡ firsts.first_of (datas args.old) }
    ensures after { datas args.new ≡ firsts.with_first (data_of value) (datas args.old) }
{
    match args.first_mut() {
        None => Value::Null,
        Some(first) => mem::replace(first, value),
    }
}

// Takes the map out of the first argument, which is null then.
pub(crate) fn take_map(alloc: Global, args: &mut [Value]) -> Result<OrderMap<Value>, AllocError>
    ensures map { IfOk result (λ m. array_of m ≡ firsts.array_in (firsts.first_of (datas args.old))) }
    ensures after { datas args.new ≡ firsts.with_first null (datas args.old) }
{
    let value = exchange_first(args, Value::Null);
    map_of(alloc, value)
}

// Puts an array in the place of the first argument.
pub(crate) fn put_first(
    alloc: Global,
    args: &mut [Value],
    map: OrderMap<Value>,
) -> Result<(), AllocError>
    ensures { OnOk result (datas args.new ≡ firsts.with_first (array (array_of map)) (datas args.old)) }
{
    let array = ArrayValue::new(alloc, map)?;
    let _old = exchange_first(args, Value::List(array));
    Ok(())
}

// The arguments behind the first.
pub(crate) fn behind_first(args: &[Value]) -> &[Value]
    ensures { datas result.now ≡ drop 1 (datas args.now) }
{
    match args {
        [] => args,
        [_, rest @ ..] => rest,
    }
}
