// Paths to the places of parameters.
ghost use Rattle.std.specs.Prelude.{◌≡◌, ◌≤◌, ◌<◌, ◌++◌, true, false, length, drop, position, IfOk, IfSome, MatchOption};
ghost use Rattle.std.specs.List.{prefix_len};
ghost use Rattle.std.specs.Option.{option_map};
ghost use Rattle.php_values.specs.Convert.{begins, after_all};
ghost use Rattle.parameters.specs.Names as spec;

use crate::MAX_BRACKETS;
use crate::step::{Step, name_key, step_of};
use std::alloc::{AllocError, Global};

// How many spaces a text begins with.
fn spaces_len(text: &[u8]) -> usize
    ensures value { result ≡ prefix_len spec.is_space text.now }
    ensures within { result ≤ length text.now }
{
    for (i, byte) in text.iter().enumerate() {
        if *byte != b' ' {
            return i;
        }
    }
    text.len()
}

/// A text without the spaces that it begins with.
pub fn after_spaces(text: &[u8]) -> &[u8]
    ensures { result.now ≡ after_all spec.is_space text.now }
{
    text.split_at(spaces_len(text)).1
}

fn open_at(name: &[u8]) -> usize
    ensures value { result ≡ spec.open_at name.now }
    ensures within { result ≤ length name.now }
{
    match name.iter().position(|byte| *byte == b'[') {
        Some(place) => place,
        None => name.len(),
    }
}

fn close_at(inside: &[u8]) -> Option<usize>
    ensures value { result ≡ position spec.is_close inside.now }
    ensures within { IfSome result (λ place. place < length inside.now) }
{
    inside.iter().position(|byte| *byte == b']')
}

// What stands behind a `[` that a text begins with.
fn after_open(text: &[u8]) -> Option<&[u8]>
    ensures { MatchOption result (begins spec.is_open text.now ≡ false) (λ inside. (begins spec.is_open text.now ≡ true) × (inside.now ≡ drop 1 text.now)) }
{
    match text {
        [b'[', inside @ ..] => Some(inside),
        _ => None,
    }
}

// A path with the steps of the brackets that a text begins with, or none.
fn with_brackets(
    alloc: Global,
    mut path: Vec<Step>,
    text: &[u8],
) -> Result<Option<Vec<Step>>, AllocError>
    ensures { IfOk result (λ whole. option_map (λ w. w.items) whole ≡ option_map (λ steps. path.items ++ steps) (spec.brackets MAX_BRACKETS text.now)) }
{
    let mut rest = text;
    for _ in 0..MAX_BRACKETS {
        let Some(inside) = after_open(rest) else {
            return Ok(Some(path));
        };
        let Some(end) = close_at(inside) else {
            return Ok(None);
        };
        path.push(step_of(alloc, inside.split_at(end).0)?)?;
        rest = inside.split_at(end + 1).1;
    }
    match after_open(rest) {
        Some(_) => Ok(None),
        None => Ok(Some(path)),
    }
}

/// The path to the place that a decoded name tells, or none where its pair is dropped.
pub fn path_of(alloc: Global, name: &[u8]) -> Result<Option<Vec<Step>>, AllocError>
    ensures { IfOk result (λ path. option_map (λ p. p.items) path ≡ spec.path_of name.now) }
{
    let name = after_spaces(name);
    let (front, brackets) = name.split_at(open_at(name));
    if front.is_empty() {
        return Ok(None);
    }
    let mut path = Vec::new(alloc);
    path.push(Step::At(name_key(alloc, front)?))?;
    let path = with_brackets(alloc, path, brackets)?;
    Ok(path)
}
