// All constants by name.

ghost use Rattle.std.specs.Prelude.{◌≡◌, IfOk};
ghost use Rattle.std.specs.Option.{option_map};
ghost use Rattle.php_values.specs.Data.{data_of};
ghost use Rattle.php_meaning.specs.Constants as spec;
ghost use Rattle.php_meaning.specs.World.{World, constant_in};
ghost use Rattle.php_constants.specs.Named.{constants_of, Knows};

use crate::name::{built_in, place_value, word_value};
use php_names::NameTable;
use php_values::Value;
use std::alloc::{AllocError, Global};

// A constant that the run made.
#[tactic(auto, using(crate::proofs::Constants::own_found, crate::proofs::Constants::own_missing))]
fn own_value(constants: &NameTable<Value>, name: &[u8]) -> Result<Option<Value>, AllocError>
    ensures { IfOk result (λ o. option_map data_of o ≡ constant_in name.now (constants_of constants.now)) }
{
    match constants.get(name) {
        Some(value) => {
            let copy = value.clone()?;
            Ok(Some(copy))
        }
        None => Ok(None),
    }
}

/// The value of a constant that stands on a line of the code of a file, by its path; `None` where there is no such constant. The
/// constants that the run made are found in the same time however many there are.
pub fn constant_value(
    alloc: Global,
    constants: &NameTable<Value>,
    path: &[u8],
    line: u32,
    name: &[u8],
) -> Result<Option<Value>, AllocError>
    ensures { IfOk result (λ o. (w : World) → Knows path.now constants.now w → option_map data_of o ≡ spec.constant_value name.now line w) }
{
    if let Some(value) = word_value(name) {
        return Ok(Some(value));
    }
    if let Some(value) = built_in(alloc, name)? {
        return Ok(Some(value));
    }
    if let Some(value) = place_value(alloc, path, line, name)? {
        return Ok(Some(value));
    }
    let value = own_value(constants, name)?;
    Ok(value)
}
