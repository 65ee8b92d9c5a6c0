// Writing within values.

ghost use Rattle.std.specs.Prelude.{◌≡◌, ◌+◌, ◌*◌, length, pos, false, OnOk, OnErr};
ghost use Rattle.std.specs.declared.result.Result.TheVariants.{Err};
ghost use Rattle.order_map.specs.declared.key.Key.TheVariants.{Int};
ghost use Rattle.php_values.specs.Data.{data_of, array_of, null, bytes, array, array_next};
ghost use Rattle.php_world.specs.Answers.{TellsData, Makes, Takes, when_ok};
ghost use Rattle.php_world.specs.Places as spec;
ghost use Rattle.php_world.specs.declared.fault.PlaceFault.TheVariants.{Memory};
ghost use Rattle.php_world.specs.View.{step_of, path_of, change_of};

use crate::fault::PlaceFault;
use crate::read::key_at;
use crate::step::{Change, Step};
use order_map::{ByteText, Key, OrderMap};
use php_values::{ArrayValue, Value, copied};
use std::alloc::Global;
use std::mem;
use std::rc::Rc;

/// The greatest count of pairs of an array.
const MAX_PAIRS: usize = 100_000;

/// The greatest length of a text, in bytes.
const MAX_TEXT_BYTES: usize = 1 << 20;

// Whether a value becomes an array where it is written into.
fn is_blank(value: &Value) -> bool
    ensures { result ≡ spec.is_blank (data_of value.now) }
{
    match value {
        Value::Null => true,
        Value::Bool(b) => !*b,
        Value::Int(_) => false,
        Value::Bytes(_) => false,
        Value::List(_) => false,
        Value::Object(_) => false,
    }
}

// Whether no pair can be added.
#[tactic(auto, using(crate::proofs::Writes::full_count))]
fn is_full(map: &OrderMap<Value>) -> bool
    ensures { result ≡ spec.is_full (array_of map.now) }
{
    map.len() >= MAX_PAIRS
}

// Whether no number is left for a next key.
fn is_spent(map: &OrderMap<Value>) -> bool
    ensures { result ≡ spec.is_spent (array_of map.now) }
{
    match map.next_key() {
        Some(_) => false,
        None => true,
    }
}

// Adds a value under the next key.
fn append(map: &mut OrderMap<Value>, value: Value) -> Result<(), PlaceFault>
    requires { spec.is_spent (array_of map.old) ≡ false }
    ensures ok { OnOk result (array_of map.new ≡ spec.with_new (Int (pos (array_next (array_of map.old)))) (array_of map.old) (data_of value)) }
    ensures err { OnErr result (result ≡ Err Memory) }
{
    match map.append(value) {
        Ok(_) => Ok(()),
        Err(_) => Err(PlaceFault::Memory),
    }
}

// Adds bytes to a text.
fn grow_text(text: &mut ByteText, more: &ByteText) -> Result<(), PlaceFault>
    ensures { Makes (spec.grow more.now (bytes text.old)) (bytes text.old) (bytes text.new) result }
{
    if text.len() > MAX_TEXT_BYTES || more.len() > MAX_TEXT_BYTES - text.len() {
        return Err(PlaceFault::Size);
    }
    text.extend_from_slice(more.as_slice())?;
    Ok(())
}

// Adds bytes to a value that is a text.
fn grow(old: &mut Value, more: &ByteText) -> Result<(), PlaceFault>
    ensures { Makes (spec.grow more.now (data_of old.old)) (data_of old.old) (data_of old.new) result }
{
    match mem::replace(old, Value::Null) {
        Value::Bytes(text) => {
            let mut text = text;
            let done = grow_text(&mut text, more);
            *old = Value::Bytes(text);
            done
        }
        other => {
            *old = other;
            Err(PlaceFault::Kind)
        }
    }
}

// Changes a value.
fn apply(old: &mut Value, change: Change) -> Result<(), PlaceFault>
    ensures { Makes (change_of change (data_of old.old)) (data_of old.old) (data_of old.new) result }
{
    match change {
        Change::Put(new) => {
            *old = new;
            Ok(())
        }
        Change::Grow(more) => grow(old, &more),
    }
}

// Takes the array out of a value that is one; another value stays.
fn take_array(old: &mut Value) -> Result<ArrayValue, PlaceFault>
    ensures { Takes (spec.array_in (data_of old.old)) (data_of old.old) (data_of old.new) result }
{
    match mem::replace(old, Value::Null) {
        Value::List(array) => Ok(array),
        Value::Object(n) => {
            *old = Value::Object(n);
            Err(PlaceFault::ObjectAsArray)
        }
        other => {
            *old = other;
            Err(PlaceFault::Kind)
        }
    }
}

/// Changes what stands at the end of a path. Where it cannot be changed, nothing changes. An array or a text that has
/// another owner is copied first, one level of it.
#[cycle(write)]
pub fn write_value(
    alloc: Global,
    old: &mut Value,
    path: &[Step],
    change: Change,
) -> Result<(), PlaceFault>
    ensures { Makes (spec.write_at (path_of path.now) (change_of change) (data_of old.old)) (data_of old.old) (data_of old.new) result }
{
    match path {
        [] => apply(old, change),
        [step, more @ ..] => match step {
            Step::At(_) | Step::Next => write_step(alloc, old, step, more, change),
            Step::Member(_) => Err(PlaceFault::NotAnObject),
        },
    }
}

// Changes a value one index further in.
#[cycle(write)]
fn write_step(
    alloc: Global,
    old: &mut Value,
    step: &Step,
    more: &[Step],
    change: Change,
) -> Result<(), PlaceFault>
    ensures { Makes (spec.write_item (step_of step.now) (spec.write_at (path_of more.now) (change_of change)) (data_of old.old)) (data_of old.old) (data_of old.new) result }
{
    if is_blank(old) {
        let fresh = write_fresh(alloc, step, more, change)?;
        *old = fresh;
        return Ok(());
    }
    let mut array = take_array(old)?;
    let done = write_shared(alloc, &mut array.map, step, more, change);
    *old = Value::List(array);
    done
}

// The array that is written where there was none.
#[cycle(write)]
fn write_fresh(
    alloc: Global,
    step: &Step,
    more: &[Step],
    change: Change,
) -> Result<Value, PlaceFault>
    ensures { TellsData (when_ok array (spec.write_index (step_of step.now) (spec.write_at (path_of more.now) (change_of change)) spec.no_array)) result }
{
    let mut map = OrderMap::new(alloc);
    write_map(alloc, &mut map, step, more, change)?;
    let array = ArrayValue::new(alloc, map)?;
    Ok(Value::List(array))
}

// Writes into an array, whose top level is copied first if it has another owner.
#[cycle(write)]
fn write_shared(
    alloc: Global,
    shared: &mut Rc<OrderMap<Value>>,
    step: &Step,
    more: &[Step],
    change: Change,
) -> Result<(), PlaceFault>
    ensures { Makes (spec.write_index (step_of step.now) (spec.write_at (path_of more.now) (change_of change)) (array_of shared.old.value)) (array_of shared.old.value) (array_of shared.new.value) result }
{
    if let Some(map) = Rc::get_mut(shared) {
        let done = write_map(alloc, map, step, more, change);
        return done;
    }
    let mut map = copied(&**shared)?;
    write_map(alloc, &mut map, step, more, change)?;
    *shared = Rc::new(alloc, map)?;
    Ok(())
}

// Writes into an array that has one owner.
#[cycle(write)]
fn write_map(
    alloc: Global,
    map: &mut OrderMap<Value>,
    step: &Step,
    more: &[Step],
    change: Change,
) -> Result<(), PlaceFault>
    ensures { Makes (spec.write_index (step_of step.now) (spec.write_at (path_of more.now) (change_of change)) (array_of map.old)) (array_of map.old) (array_of map.new) result }
{
    match step {
        Step::At(key) => {
            let key = key_at(alloc, key)?;
            write_key(alloc, map, key, more, change)
        }
        Step::Next => write_next(alloc, map, more, change),
        Step::Member(_) => Err(PlaceFault::NotAnObject),
    }
}

// Writes at a key: the value is taken out, changed and put back.
#[cycle(write)]
fn write_key(
    alloc: Global,
    map: &mut OrderMap<Value>,
    key: Key,
    more: &[Step],
    change: Change,
) -> Result<(), PlaceFault>
    ensures { Makes (spec.write_key (spec.write_at (path_of more.now) (change_of change)) (array_of map.old) key) (array_of map.old) (array_of map.new) result }
{
    match map.replace(&key, Value::Null) {
        Some(inner) => {
            let mut inner = inner;
            let done = write_value(alloc, &mut inner, more, change);
            let _hole = map.replace(&key, inner);
            done
        }
        None => {
            if is_full(map) {
                return Err(PlaceFault::Size);
            }
            match new_item(alloc, more, change) {
                Ok(inner) => {
                    let _none = map.set(key, inner)?;
                    Ok(())
                }
                Err(fault) => Err(fault),
            }
        }
    }
}

// Writes at the next key.
#[cycle(write)]
fn write_next(
    alloc: Global,
    map: &mut OrderMap<Value>,
    more: &[Step],
    change: Change,
) -> Result<(), PlaceFault>
    ensures { Makes (spec.write_next (spec.write_at (path_of more.now) (change_of change)) (array_of map.old)) (array_of map.old) (array_of map.new) result }
{
    if is_full(map) {
        return Err(PlaceFault::Size);
    }
    if is_spent(map) {
        return Err(PlaceFault::Keys);
    }
    match new_item(alloc, more, change) {
        Ok(inner) => append(map, inner),
        Err(fault) => Err(fault),
    }
}

// The value of a new pair.
#[cycle(write)]
fn new_item(alloc: Global, more: &[Step], change: Change) -> Result<Value, PlaceFault>
    ensures { TellsData (spec.write_at (path_of more.now) (change_of change) null) result }
{
    let mut inner = Value::Null;
    write_value(alloc, &mut inner, more, change)?;
    Ok(inner)
}
