// Steps to the places of parameters.
ghost use Rattle.std.specs.Prelude.{◌≡◌, map, IfOk};
ghost use Rattle.parameters.specs.Names as spec;

use order_map::{ByteText, Key};
use php_values::normal_number;
use std::alloc::{AllocError, Global};

/// A step from an array to a place in it: at a key, or at the next free number.
#[derive(Debug, Drop)]
pub enum Step {
    At(Key),
    Next,
}

/// The key of a text: a number where the text is its normal form.
pub fn key_of(alloc: Global, text: &[u8]) -> Result<Key, AllocError>
    ensures { IfOk result (λ key. key ≡ spec.key_of text.now) }
{
    match normal_number(text) {
        Some(n) => Ok(Key::Int(n)),
        None => {
            let text = ByteText::from_slice(alloc, text)?;
            Ok(Key::Text(text))
        }
    }
}

fn name_byte(byte: u8) -> u8
    ensures { result ≡ spec.name_byte byte }
{
    if byte == b'.' || byte == b' ' {
        b'_'
    } else {
        byte
    }
}

/// The key of a name, in which dots and spaces become `_`.
pub fn name_key(alloc: Global, name: &[u8]) -> Result<Key, AllocError>
    ensures { IfOk result (λ key. key ≡ spec.name_key name.now) }
{
    let name: Vec<u8> = name.iter().map(|byte| name_byte(*byte)).collect(alloc)?;
    let key = key_of(alloc, &name)?;
    Ok(key)
}

/// The step of what stands in brackets.
pub fn step_of(alloc: Global, inside: &[u8]) -> Result<Step, AllocError>
    ensures { IfOk result (λ step. step ≡ spec.step_of inside.now) }
{
    if inside.is_empty() {
        return Ok(Step::Next);
    }
    let key = key_of(alloc, inside)?;
    Ok(Step::At(key))
}
