//! What is told of a row's application or copy.

use crate::files::{files_of, push_number};
use crate::row::Row;
use app_entries::{entries, ordinal};
use app_files::App;
use app_load::Entry;
use folder_loader::{AppRefusal, CopyRefusal, load_app_in, load_copy_in};
use less_outside::FolderMem;
use load_notes::{accepted_text, app_note, copy_note};
use std::alloc::{AllocError, Global};

fn told_of_app(alloc: Global, folder: &mut FolderMem) -> Result<Vec<u8>, AllocError> {
    match load_app_in(alloc, folder, "app") {
        Ok(app) => accepted_text(alloc, app.files()),
        Err(AppRefusal::At { file, line, kind }) => app_note(alloc, file.as_str(), line, &kind),
        Err(AppRefusal::ReadFault) => Vec::from_slice(alloc, b"read fault\n"),
        Err(AppRefusal::Memory) => Err(AllocError),
    }
}

fn push_entry(text: &mut Vec<u8>, entry: &Entry) -> Result<(), AllocError> {
    match entry {
        Entry::File { path } => text.extend_from_slice(path.as_bytes())?,
        Entry::Function { path, name } => {
            text.extend_from_slice(path.as_bytes())?;
            text.push(b'#')?;
            text.extend_from_slice(name.as_bytes())?;
        }
    }
    Ok(())
}

// A line for each entry: its path, its name behind `#`, and its ordinal.
fn entries_text(alloc: Global, app: &App) -> Result<Vec<u8>, AllocError> {
    let files = app.files();
    let mut text = Vec::new(alloc);
    for entry in &entries(alloc, files)? {
        push_entry(&mut text, entry)?;
        text.push(b' ')?;
        match ordinal(files, entry) {
            Some(number) => push_number(&mut text, number)?,
            None => text.push(b'-')?,
        }
        text.push(b'\n')?;
    }
    Ok(text)
}

fn entries_of(alloc: Global, folder: &mut FolderMem) -> Result<Vec<u8>, AllocError> {
    match load_app_in(alloc, folder, "app") {
        Ok(app) => entries_text(alloc, &app),
        Err(_) => Vec::from_slice(alloc, b"refused\n"),
    }
}

fn told_of_copy(alloc: Global, folder: &mut FolderMem) -> Result<Vec<u8>, AllocError> {
    match load_copy_in(alloc, folder, "copies/guest") {
        Ok(program) => accepted_text(alloc, program.files()),
        Err(CopyRefusal::At { file, line, kind }) => {
            copy_note(alloc, "guest", file.as_str(), line, kind)
        }
        Err(CopyRefusal::ReadFault) => Vec::from_slice(alloc, b"read fault\n"),
        Err(CopyRefusal::Memory) => Err(AllocError),
    }
}

/// The line of an accepted application or copy, or its entries, or the note of its refusal; each ends its line.
pub fn told_of(alloc: Global, row: &Row<'_>) -> Result<String, AllocError> {
    let files = files_of(alloc, row)?;
    let mut folder = FolderMem::new(alloc, files, Vec::new(alloc))?;
    let bytes = match row {
        Row::Copy(_) => told_of_copy(alloc, &mut folder)?,
        Row::Entries(_) => entries_of(alloc, &mut folder)?,
        _ => told_of_app(alloc, &mut folder)?,
    };
    match str::from_utf8(&bytes) {
        Ok(text) => String::from_str(alloc, text),
        Err(_) => Err(AllocError),
    }
}
