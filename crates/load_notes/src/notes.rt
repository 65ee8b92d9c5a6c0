// The notes of refusals.
ghost use Rattle.std.specs.Prelude.{◌≡◌, ◌++◌, IfOk, OnOk};
ghost use Rattle.std.specs.Fmt.{decimal};
ghost use Rattle.load_notes.specs.Notes as spec;

use crate::kinds::{copy_kind_text, push_kind};
use app_load::{AppKind, CopyKind};
use itoa::Buffer;
use less_terms::Memory;
use std::alloc::Global;

/// Puts a number in decimal behind a note.
pub fn push_number(note: &mut Vec<u8>, number: u64) -> Result<(), Memory>
    ensures { OnOk result (note.new.items ≡ note.old.items ++ decimal number) }
{
    let mut digits = Buffer::new();
    note.extend_from_slice(digits.format(number).as_bytes())?;
    Ok(())
}

fn push_place(note: &mut Vec<u8>, file: &str, line: u32) -> Result<(), Memory>
    ensures { OnOk result (note.new.items ≡ note.old.items ++ spec.place_text file.now line) }
{
    note.extend_from_slice(file.as_bytes())?;
    note.extend_from_slice(b":")?;
    push_number(note, line as u64)?;
    note.extend_from_slice(b": ")?;
    Ok(())
}

/// The note of an application that is refused: `less: app FILE:LINE: KIND` and a line end. Of a limit of the whole the file is
/// empty and the line is 0.
pub fn app_note(alloc: Global, file: &str, line: u32, kind: &AppKind) -> Result<Vec<u8>, Memory>
    ensures { IfOk result (λ note. note.items ≡ spec.app_note file.now line kind.now) }
{
    let mut note = Vec::from_slice(alloc, b"less: app ")?;
    push_place(&mut note, file, line)?;
    push_kind(&mut note, kind)?;
    note.push(b'\n')?;
    Ok(note)
}

/// The note of a role's copy that is refused: `less: copy ROLE FILE:LINE: KIND` and a line end.
pub fn copy_note(
    alloc: Global,
    role: &str,
    file: &str,
    line: u32,
    kind: CopyKind,
) -> Result<Vec<u8>, Memory>
    ensures { IfOk result (λ note. note.items ≡ spec.copy_note role.now file.now line kind) }
{
    let mut note = Vec::from_slice(alloc, b"less: copy ")?;
    note.extend_from_slice(role.as_bytes())?;
    note.extend_from_slice(b" ")?;
    push_place(&mut note, file, line)?;
    note.extend_from_slice(copy_kind_text(kind))?;
    note.push(b'\n')?;
    Ok(note)
}
