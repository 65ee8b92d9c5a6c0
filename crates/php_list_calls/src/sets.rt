// Calls whose arrays have values as keys, or each value once.

ghost use Rattle.std.specs.Prelude.{◌≡◌, [], ◌∷◌, ◌++◌, OnOk, IfOk, if◌then◌else◌};
ghost use Rattle.order_map.specs.Arrays.{pairs_of, keys_of};
ghost use Rattle.order_map.specs.Keys.{has_key};
ghost use Rattle.php_values.specs.Data.{array_of, data_of};
ghost use Rattle.php_values.specs.Convert as convert;
ghost use Rattle.php_list_calls.specs.Items.{items, empty, with_set};
ghost use Rattle.php_list_calls.specs.Sets as sets;
ghost use Rattle.php_list_calls.specs.ListCalls as spec;

use crate::build::{array_value, key_value, set_item, set_value};
use crate::look::only_array;
use order_map::{ByteText, Key, OrderMap};
use php_arguments::{CallFault, text_argument};
use php_values::{Value, Walk, normal_number};
use std::alloc::{AllocError, Global};

// The key of a text: a number where the text is its normal form.
fn text_key(text: &ByteText) -> Result<Key, AllocError>
    ensures { IfOk result (λ key. key ≡ convert.text_key (convert.normal_number text.now) text.now) }
{
    match normal_number(text.as_slice()) {
        Some(n) => Ok(Key::Int(n)),
        None => Ok(Key::Text(text.clone()?)),
    }
}

// Sets a key as the value of the key that a value stands for, where this is a number or a text.
fn add_flipped(map: &mut OrderMap<Value>, key: &Key, value: &Value) -> Result<(), AllocError>
    ensures { OnOk result (array_of map.new ≡ sets.with_flipped key.now (data_of value.now) (array_of map.old)) }
{
    match value {
        Value::Int(n) => set_value(map, Key::Int(*n), key_value(key)?),
        Value::Bytes(text) => set_value(map, text_key(text)?, key_value(key)?),
        Value::Null => Ok(()),
        Value::Bool(_) => Ok(()),
        Value::List(_) => Ok(()),
        Value::Object(_) => Ok(()),
    }
}

fn flipped(alloc: Global, array: &OrderMap<Value>) -> Result<OrderMap<Value>, AllocError>
    ensures { IfOk result (λ m. array_of m ≡ sets.flipped empty (items (array_of array.now))) }
{
    let mut map = OrderMap::new(alloc);
    let mut walk = Walk::new(array);
    while let Some((key, value)) = walk.next() {
        add_flipped(&mut map, key, value)?;
    }
    Ok(map)
}

pub(crate) fn array_flip(alloc: Global, args: &[Value]) -> Result<Value, CallFault>
    ensures { spec.GivesValue (spec.array_flip (spec.datas args.now)) result }
{
    let array = only_array(args)?;
    let flipped = flipped(alloc, array)?;
    array_value(alloc, flipped)
}

// Notes a text, and tells whether it was there before.
fn was_noted(texts: &mut OrderMap<bool>, text: Key) -> Result<bool, AllocError>
    ensures was { IfOk result (λ was. was ≡ has_key text (keys_of (pairs_of texts.old))) }
    ensures noted { IfOk result (λ was. keys_of (pairs_of texts.new) ≡ (if was then keys_of (pairs_of texts.old) else keys_of (pairs_of texts.old) ++ text ∷ [])) }
{
    let old = texts.set(text, true)?;
    Ok(old.is_some())
}

// The items whose texts stand at no earlier one.
fn first_ones(alloc: Global, array: &OrderMap<Value>) -> Result<OrderMap<Value>, CallFault>
    ensures { spec.GivesMap (sets.first_ones [] empty (items (array_of array.now))) result }
{
    let mut texts = OrderMap::new(alloc);
    let mut map = OrderMap::new(alloc);
    let mut walk = Walk::new(array);
    while let Some((key, value)) = walk.next() {
        let text = text_argument(alloc, value)?;
        let was = was_noted(&mut texts, Key::Text(text))?;
        add_unless(was, &mut map, key, value)?;
    }
    Ok(map)
}

// Adds an item, or does nothing.
fn add_unless(
    had: bool,
    map: &mut OrderMap<Value>,
    key: &Key,
    value: &Value,
) -> Result<(), AllocError>
    ensures { OnOk result (array_of map.new ≡ (if had then array_of map.old else with_set key.now (data_of value.now) (array_of map.old))) }
{
    if had {
        return Ok(());
    }
    set_item(map, key, value)
}

pub(crate) fn array_unique(alloc: Global, args: &[Value]) -> Result<Value, CallFault>
    ensures { spec.GivesValue (spec.array_unique (spec.datas args.now)) result }
{
    let array = only_array(args)?;
    let map = first_ones(alloc, array)?;
    array_value(alloc, map)
}
