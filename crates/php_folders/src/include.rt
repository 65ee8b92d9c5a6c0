// The file that an include names.

ghost use Rattle.std.specs.Prelude.{◌≡◌, drop, map, IfOk};
ghost use Rattle.php_meaning.specs.Folders as spec;
ghost use Rattle.php_meaning.specs.World.{World};
ghost use Rattle.php_folders.specs.Files.{part_at, IsFile, StandsIn};

use crate::segments::{folder_of, push_slashed, resolve, segments};
use php_tables::PathTable;
use std::alloc::{AllocError, Global};

// A path without the byte that it begins with.
fn without_slash(path: &[u8]) -> &[u8]
    ensures { result.now ≡ drop 1 path.now }
{
    if path.is_empty() {
        path
    } else {
        path.split_at(1).1
    }
}

// The file of a path from a folder on.
fn file_at<'a>(
    alloc: Global,
    files: &PathTable,
    folder: Vec<&'a [u8]>,
    text: &'a [u8],
) -> Result<Option<usize>, AllocError>
    ensures { IfOk result (λ n. IsFile files.now (spec.file_at files.now (spec.resolved (map part_at folder.entry.items) (spec.segments text.now))) n) }
{
    let parts = segments(alloc, text)?;
    let mut folder = folder;
    if !resolve(&mut folder, parts.as_slice())? {
        return Ok(None);
    }
    let mut path = Vec::new(alloc);
    push_slashed(&mut path, folder.as_slice())?;
    Ok(files.number(without_slash(path.as_slice())))
}

fn is_from_script(text: &[u8]) -> bool
    ensures { result ≡ spec.is_from_script text.now }
{
    if text.starts_with(b"./") {
        return true;
    }
    text.starts_with(b"../")
}

/// The number of the file that an include names: from the application's folder, from the script's, or from that of the file
/// that includes. `files` are the paths of the program, `path` is that of the file whose code runs.
pub fn file_named(
    alloc: Global,
    files: &PathTable,
    script: &[u8],
    path: &[u8],
    text: &[u8],
) -> Result<Option<usize>, AllocError>
    ensures { IfOk result (λ n. (w : World) → StandsIn files.now script.now path.now w → IsFile files.now (spec.file_named text.now w) n) }
{
    if text.starts_with(b"/app/") {
        let root = Vec::new(alloc);
        let file = file_at(alloc, files, root, text.split_at(5).1)?;
        return Ok(file);
    }
    let folder = folder_of(alloc, script)?;
    let file = file_at(alloc, files, folder, text)?;
    if file.is_some() || is_from_script(text) {
        return Ok(file);
    }
    let folder = folder_of(alloc, path)?;
    let file = file_at(alloc, files, folder, text)?;
    Ok(file)
}
