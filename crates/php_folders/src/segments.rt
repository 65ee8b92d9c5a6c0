// The segments of paths.

ghost use Rattle.std.specs.Prelude.{◌≡◌, ◌++◌, ◌==◌, map, IfOk, OnOk, Some, None, if◌then◌else◌};
ghost use Rattle.std.specs.List.{slice_split};
ghost use Rattle.php_meaning.specs.Folders as spec;
ghost use Rattle.php_meaning.specs.Constants as constants;
ghost use Rattle.php_folders.specs.Files.{part_at, slashed};

use std::alloc::{AllocError, Global};

// What a text is split into by each `/`.
fn pieces(alloc: Global, text: &[u8]) -> Result<Vec<&[u8]>, AllocError>
    ensures { IfOk result (λ parts. map (λ part. part.now) parts.items ≡ slice_split (λ b. b == 47) text.now) }
{
    text.split(|b| *b == b'/').collect(alloc)
}

// The parts of a text between its `/`.
pub(crate) fn segments(alloc: Global, text: &[u8]) -> Result<Vec<&[u8]>, AllocError>
    ensures { IfOk result (λ parts. map part_at parts.items ≡ spec.segments text.now) }
{
    let parts = pieces(alloc, text)?;
    Ok(parts)
}

// The segments of a file's folder.
pub(crate) fn folder_of(alloc: Global, path: &[u8]) -> Result<Vec<&[u8]>, AllocError>
    ensures { IfOk result (λ parts. map part_at parts.items ≡ spec.folder_of path.now) }
{
    let mut parts = segments(alloc, path)?;
    match parts.pop() {
        Some(_) => Ok(parts),
        None => Ok(parts),
    }
}

/// Puts segments behind a path, each with a `/` before it.
pub(crate) fn push_slashed(path: &mut Vec<u8>, parts: &[&[u8]]) -> Result<(), AllocError>
    ensures { OnOk result (path.new.items ≡ path.old.items ++ slashed (map part_at parts.now)) }
{
    for part in parts {
        path.push(b'/')?;
        path.extend_from_slice(part)?;
    }
    Ok(())
}

/// The whole path of a file's folder.
#[tactic(auto, using(crate::proofs::Parts::text_slashed))]
pub fn folder_text(alloc: Global, path: &[u8]) -> Result<Vec<u8>, AllocError>
    ensures { IfOk result (λ text. text.items ≡ constants.folder_text (spec.folder_of path.now)) }
{
    let parts = folder_of(alloc, path)?;
    let mut text = Vec::from_slice(alloc, b"/app")?;
    push_slashed(&mut text, parts.as_slice())?;
    Ok(text)
}

// The folder above; tells whether there is one.
fn go_up(folder: &mut Vec<&[u8]>) -> bool
    ensures { spec.above (map part_at folder.old.items) ≡ (if result then Some (map part_at folder.new.items) else None) }
{
    match folder.pop() {
        Some(_) => true,
        None => false,
    }
}

// One segment further; tells whether it leads anywhere.
fn further<'a>(folder: &mut Vec<&'a [u8]>, part: &'a [u8]) -> Result<bool, AllocError>
    ensures { IfOk result (λ ok. spec.further part.now (map part_at folder.old.items) ≡ (if ok then Some (map part_at folder.new.items) else None)) }
{
    if part == b"".as_slice() {
        return Ok(false);
    }
    if part == b".".as_slice() {
        return Ok(true);
    }
    if part == b"..".as_slice() {
        return Ok(go_up(folder));
    }
    folder.push(part)?;
    Ok(true)
}

// A path from a folder on; tells whether it leads anywhere.
pub(crate) fn resolve<'a>(
    folder: &mut Vec<&'a [u8]>,
    parts: &[&'a [u8]],
) -> Result<bool, AllocError>
    ensures { IfOk result (λ ok. spec.resolved (map part_at folder.old.items) (map part_at parts.now) ≡ (if ok then Some (map part_at folder.new.items) else None)) }
{
    for part in parts {
        if !further(folder, part)? {
            return Ok(false);
        }
    }
    Ok(true)
}
