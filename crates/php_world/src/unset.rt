// Removing places within values.

ghost use Rattle.std.specs.Prelude.{◌≡◌, ◌+◌, ◌*◌, length};
ghost use Rattle.php_values.specs.Data.{data_of, array_of};
ghost use Rattle.php_world.specs.Answers.{Makes, Takes};
ghost use Rattle.php_world.specs.Places as spec;
ghost use Rattle.php_world.specs.View.{step_of, path_of};

use crate::fault::PlaceFault;
use crate::read::key_at;
use crate::step::Step;
use order_map::{Key, OrderMap};
use php_values::{ArrayValue, Value, copied};
use std::alloc::Global;
use std::mem;
use std::rc::Rc;

/// Removes what stands at the end of a path, if it is there. Where that is refused, nothing changes.
#[cycle(unset)]
pub fn unset_value(alloc: Global, old: &mut Value, path: &[Step]) -> Result<(), PlaceFault>
    ensures { Makes (spec.unset_at (path_of path.now) (data_of old.old)) (data_of old.old) (data_of old.new) result }
{
    match path {
        [] => Ok(()),
        [step, more @ ..] => match step {
            Step::At(_) => unset_step(alloc, old, step, more),
            Step::Next => unset_step(alloc, old, step, more),
            Step::Member(_) => Ok(()),
        },
    }
}

// Removes one index further in.
#[cycle(unset)]
fn unset_step(alloc: Global, old: &mut Value, step: &Step, more: &[Step]) -> Result<(), PlaceFault>
    ensures { Makes (spec.unset_item (step_of step.now) (path_of more.now) (spec.unset_at (path_of more.now)) (data_of old.old)) (data_of old.old) (data_of old.new) result }
{
    match mem::replace(old, Value::Null) {
        Value::List(array) => {
            let mut array = array;
            let done = unset_shared(alloc, &mut array.map, step, more);
            *old = Value::List(array);
            done
        }
        Value::Bytes(text) => {
            *old = Value::Bytes(text);
            Err(PlaceFault::Kind)
        }
        Value::Object(n) => {
            *old = Value::Object(n);
            Err(PlaceFault::ObjectAsArray)
        }
        other => {
            *old = other;
            Ok(())
        }
    }
}

// The same in an array, whose top level is copied first if it has another owner.
#[cycle(unset)]
fn unset_shared(
    alloc: Global,
    shared: &mut Rc<OrderMap<Value>>,
    step: &Step,
    more: &[Step],
) -> Result<(), PlaceFault>
    ensures { Makes (spec.unset_index (step_of step.now) (path_of more.now) (spec.unset_at (path_of more.now)) (array_of shared.old.value)) (array_of shared.old.value) (array_of shared.new.value) result }
{
    if let Some(map) = Rc::get_mut(shared) {
        let done = unset_map(alloc, map, step, more);
        return done;
    }
    let mut map = copied(&**shared)?;
    unset_map(alloc, &mut map, step, more)?;
    *shared = Rc::new(alloc, map)?;
    Ok(())
}

// The same in an array that has one owner.
#[cycle(unset)]
fn unset_map(
    alloc: Global,
    map: &mut OrderMap<Value>,
    step: &Step,
    more: &[Step],
) -> Result<(), PlaceFault>
    ensures { Makes (spec.unset_index (step_of step.now) (path_of more.now) (spec.unset_at (path_of more.now)) (array_of map.old)) (array_of map.old) (array_of map.new) result }
{
    match step {
        Step::At(key) => {
            let key = key_at(alloc, key)?;
            unset_key(alloc, map, &key, more)
        }
        Step::Next => Ok(()),
        Step::Member(_) => Ok(()),
    }
}

// The same at a key: the last one takes its pair out, another's value is taken out, changed and put back.
#[cycle(unset)]
fn unset_key(
    alloc: Global,
    map: &mut OrderMap<Value>,
    key: &Key,
    more: &[Step],
) -> Result<(), PlaceFault>
    ensures { Makes (spec.unset_key (path_of more.now) (spec.unset_at (path_of more.now)) (array_of map.old) key.now) (array_of map.old) (array_of map.new) result }
{
    if more.is_empty() {
        let _gone = map.remove(key);
        return Ok(());
    }
    match map.replace(key, Value::Null) {
        None => Ok(()),
        Some(inner) => {
            let mut inner = inner;
            let done = unset_value(alloc, &mut inner, more);
            let _hole = map.replace(key, inner);
            done
        }
    }
}
