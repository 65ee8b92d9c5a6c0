//! The files that a row describes.

use crate::row::Row;
use itoa::Buffer;
use std::alloc::{AllocError, Global};

type Files = Vec<(String, Vec<u8>)>;

const PIECE: u32 = 1_048_576;

const FUNCTIONS_OF_A_FILE: u32 = 1_000;

/// Puts a number in decimal behind a text.
pub fn push_number(text: &mut Vec<u8>, number: u32) -> Result<(), AllocError> {
    let mut digits = Buffer::new();
    text.extend_from_slice(digits.format(number).as_bytes())?;
    Ok(())
}

// The path of the file of a number.
fn path_of(alloc: Global, number: u32, end: &str) -> Result<String, AllocError> {
    let mut path = String::from_str(alloc, "app/f")?;
    let mut digits = Buffer::new();
    path.push_str(digits.format(number))?;
    path.push_str(end)?;
    Ok(path)
}

fn push_file(
    alloc: Global,
    files: &mut Files,
    number: u32,
    end: &str,
    len: u32,
) -> Result<(), AllocError> {
    let text = vec![in alloc; b'a'; len as usize]?;
    files.push((path_of(alloc, number, end)?, text))?;
    Ok(())
}

// Files of so many bytes in all.
fn push_pieces(alloc: Global, files: &mut Files, bytes: u32, end: &str) -> Result<(), AllocError> {
    for number in 0..bytes / PIECE {
        push_file(alloc, files, number, end, PIECE)?;
    }
    push_file(alloc, files, bytes / PIECE, end, bytes % PIECE)?;
    Ok(())
}

fn functions_text(alloc: Global, count: u32) -> Result<Vec<u8>, AllocError> {
    let mut text = Vec::from_slice(alloc, b"<?php\n")?;
    for number in 0..count {
        text.extend_from_slice(b"function f")?;
        push_number(&mut text, number)?;
        text.extend_from_slice(b"() {}\n")?;
    }
    Ok(text)
}

fn push_functions(alloc: Global, files: &mut Files, count: u32) -> Result<(), AllocError> {
    let whole = functions_text(alloc, FUNCTIONS_OF_A_FILE)?;
    for number in 0..count / FUNCTIONS_OF_A_FILE {
        files.push((
            path_of(alloc, number, ".php")?,
            Vec::from_slice(alloc, &whole)?,
        ))?;
    }
    let rest = functions_text(alloc, count % FUNCTIONS_OF_A_FILE)?;
    let path = path_of(alloc, count / FUNCTIONS_OF_A_FILE, ".php")?;
    files.push((path, rest))?;
    Ok(())
}

// A text in which each `~` is a line end.
fn push_text(alloc: Global, files: &mut Files, path: &str, text: &str) -> Result<(), AllocError> {
    let mut bytes = Vec::new(alloc);
    for &byte in text.as_bytes() {
        bytes.push(if byte == b'~' { b'\n' } else { byte })?;
    }
    files.push((String::from_str(alloc, path)?, bytes))?;
    Ok(())
}

fn push_path(alloc: Global, files: &mut Files, len: u32) -> Result<(), AllocError> {
    let mut path = String::from_str(alloc, "app/")?;
    for _ in 0..len {
        path.push('a')?;
    }
    files.push((path, Vec::new(alloc)))?;
    Ok(())
}

/// The files of the folder that a row describes.
pub fn files_of(alloc: Global, row: &Row<'_>) -> Result<Vec<(String, Vec<u8>)>, AllocError> {
    let mut files = Vec::new(alloc);
    match row {
        Row::Text(text) | Row::Entries(text) => {
            push_text(alloc, &mut files, "app/index.php", text)?
        }
        Row::Copy(text) => push_text(alloc, &mut files, "copies/guest/index.php", text)?,
        Row::Files(count) => {
            for number in 0..*count {
                push_file(alloc, &mut files, number, ".css", 0)?;
            }
        }
        Row::Php(bytes) => push_file(alloc, &mut files, 0, ".php", *bytes)?,
        Row::Total(bytes) => push_pieces(alloc, &mut files, *bytes, ".php")?,
        Row::Static(bytes) => push_pieces(alloc, &mut files, *bytes, ".css")?,
        Row::Functions(count) => push_functions(alloc, &mut files, *count)?,
        Row::Path(len) => push_path(alloc, &mut files, *len)?,
        Row::Both => {
            push_pieces(alloc, &mut files, 8_388_609, ".php")?;
            push_pieces(alloc, &mut files, 33_554_433, ".css")?;
        }
    }
    Ok(files)
}
