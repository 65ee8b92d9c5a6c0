// The parameters of a form or a query.
ghost use Rattle.std.specs.Prelude.{◌≡◌, OnOk, IfOk};
ghost use Rattle.php_values.specs.Data.{bytes, data_of, array_of};
ghost use Rattle.parameters.specs.Names.{path_of};
ghost use Rattle.parameters.specs.Parameters as spec;

use crate::MAX_PAIRS;
use crate::nested::write;
use crate::path::path_of;
use form_urlencoded::{decode, raw_pairs};
use order_map::{ByteText, OrderMap};
use php_values::Value;
use std::alloc::{AllocError, Global};

/// The text of encoded bytes, with U+FFFD in the place of what is not UTF-8.
pub fn text_of(alloc: Global, encoded: &[u8]) -> Result<ByteText, AllocError>
    ensures { IfOk result (λ text. text ≡ spec.text_of encoded.now) }
{
    let decoded = decode(alloc, encoded)?;
    let text = ByteText::from_slice(alloc, decoded.as_bytes())?;
    Ok(text)
}

// Writes a value where a decoded name tells, if it tells a place.
fn add_value(
    alloc: Global,
    map: &mut OrderMap<Value>,
    name: &[u8],
    value: Value,
) -> Result<(), AllocError>
    ensures { OnOk result (array_of map.new ≡ spec.with_value (path_of name.now) (data_of value) (array_of map.old)) }
{
    if let Some(path) = path_of(alloc, name)? {
        write(alloc, map, &path, value)?;
    }
    Ok(())
}

// Adds a pair of an encoded name and an encoded value.
fn add_pair(
    alloc: Global,
    map: &mut OrderMap<Value>,
    name: &[u8],
    value: &[u8],
) -> Result<(), AllocError>
    ensures { OnOk result (array_of map.new ≡ spec.with_pair (name.now, value.now) (array_of map.old)) }
{
    let name = text_of(alloc, name)?;
    let value = text_of(alloc, value)?;
    add_value(alloc, map, name.as_slice(), Value::Bytes(value))?;
    Ok(())
}

/// The parameters of a form or a query, in the form `application/x-www-form-urlencoded`.
pub fn parameters(alloc: Global, input: &[u8]) -> Result<OrderMap<Value>, AllocError>
    ensures { IfOk result (λ map. array_of map ≡ spec.parameters_of input.now) }
{
    let mut map = OrderMap::new(alloc);
    let mut pairs = raw_pairs(input);
    for _ in 0..MAX_PAIRS {
        let Some((name, value)) = pairs.next() else {
            return Ok(map);
        };
        add_pair(alloc, &mut map, name, value)?;
    }
    Ok(map)
}
