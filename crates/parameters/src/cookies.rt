// The cookies of a request.
ghost use Rattle.std.specs.Prelude.{◌≡◌, ◌≤◌, ◌<◌, length, position, IfSome, OnOk};
ghost use Rattle.form_urlencoded.specs.Form.{split_pair};
ghost use Rattle.php_values.specs.Data.{bytes, data_of, array_of};
ghost use Rattle.php_values.specs.Arithmetic.{value_in, added_if_missing};
ghost use Rattle.parameters.specs.Cookies as spec;

use crate::pairs::text_of;
use crate::path::after_spaces;
use crate::step::key_of;
use order_map::{Key, OrderMap};
use php_values::Value;
use std::alloc::{AllocError, Global};

fn add_if_missing(map: &mut OrderMap<Value>, key: Key, value: Value) -> Result<(), AllocError>
    ensures { OnOk result (array_of map.new ≡ added_if_missing (value_in key (array_of map.old)) key (data_of value) (array_of map.old)) }
{
    if map.get(&key).is_some() {
        return Ok(());
    }
    map.set(key, value)?;
    Ok(())
}

fn add_named(
    alloc: Global,
    map: &mut OrderMap<Value>,
    name: &[u8],
    value: Value,
) -> Result<(), AllocError>
    ensures { OnOk result (array_of map.new ≡ spec.with_named name.now (data_of value) (array_of map.old)) }
{
    if name.is_empty() {
        return Ok(());
    }
    let key = key_of(alloc, name)?;
    add_if_missing(map, key, value)?;
    Ok(())
}

// The name and the value of a piece, on the two sides of the first `=`.
fn split_pair(piece: &[u8]) -> (&[u8], &[u8])
    ensures name { result.0.now ≡ (split_pair piece.now).0 }
    ensures value { result.1.now ≡ (split_pair piece.now).1 }
{
    match piece.iter().position(|byte| *byte == b'=') {
        Some(place) => (&piece[..place], &piece[place + 1..]),
        None => (piece, &[]),
    }
}

// Adds the cookie of a piece of a header.
fn add_cookie(alloc: Global, map: &mut OrderMap<Value>, piece: &[u8]) -> Result<(), AllocError>
    ensures { OnOk result (array_of map.new ≡ spec.with_cookie piece.now (array_of map.old)) }
{
    let (name, value) = split_pair(after_spaces(piece));
    let name = text_of(alloc, name)?;
    let value = text_of(alloc, value)?;
    add_named(alloc, map, name.as_slice(), Value::Bytes(value))?;
    Ok(())
}

fn semicolon_at(text: &[u8]) -> Option<usize>
    ensures value { result ≡ position spec.is_semicolon text.now }
    ensures within { IfSome result (λ place. place < length text.now) }
{
    text.iter().position(|byte| *byte == b';')
}

/// Adds the cookies of a `Cookie` header whose names are not there yet.
pub fn add_cookies(
    alloc: Global,
    map: &mut OrderMap<Value>,
    header: &[u8],
) -> Result<(), AllocError>
    ensures { OnOk result (array_of map.new ≡ spec.with_header header.now (array_of map.old)) }
{
    let mut rest = header;
    while let Some(end) = semicolon_at(rest) {
        add_cookie(alloc, map, rest.split_at(end).0)?;
        rest = rest.split_at(end + 1).1;
    }
    add_cookie(alloc, map, rest)?;
    Ok(())
}
