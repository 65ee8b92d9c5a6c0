//! What is printed of a line of the input.

ghost use Rattle.std.specs.Prelude.{◌≤◌, length};

use crate::print::Print;
use php_lexer::{LexFault, lex};
use php_parse::parse;
use php_parser::{ParseFault, ParseKind};
use php_tree::file::{FileTree, FunSpan};
use std::alloc::{AllocError, Global};

const MAX_TEXT_BYTES: usize = 1_048_576;

/// What is printed of a line: a remark as it is, or a text and what parsing tells of it.
pub fn printed(alloc: Global, line: &[u8]) -> Result<Vec<u8>, AllocError> {
    let mut out = Vec::from_slice(alloc, line)?;
    out.push(b'\n')?;
    if line.starts_with(b"#") {
        return Ok(out);
    }
    let text = text_of(alloc, line)?;
    if text.len() > MAX_TEXT_BYTES {
        out.extend_from_slice(b"    too long\n")?;
        return Ok(out);
    }
    let told = told_of(alloc, text.as_slice())?;
    out.extend_from_slice(b"    ")?;
    out.extend_from_slice(told.as_slice())?;
    out.push(b'\n')?;
    Ok(out)
}

// The text of a line, in which `^` stands for the end of a line.
fn text_of(alloc: Global, line: &[u8]) -> Result<Vec<u8>, AllocError> {
    let mut text = Vec::new(alloc);
    for byte in line {
        let meant = if *byte == b'^' { b'\n' } else { *byte };
        text.push(meant)?;
    }
    Ok(text)
}

fn told_of(alloc: Global, text: &[u8]) -> Result<Vec<u8>, AllocError>
    requires { length text.now ≤ 1048576 }
{
    match lex(alloc, text) {
        Err(LexFault::At { place, .. }) => fault_told(alloc, text, place, b"no token"),
        Err(LexFault::Memory) => Err(AllocError),
        Ok(tokens) => match parse(alloc, text, &tokens) {
            Ok(tree) => tree_told(alloc, text, &tree),
            Err(ParseFault::At { place, kind }) => {
                let word = kind_word(alloc, &kind)?;
                fault_told(alloc, text, place, word.as_slice())
            }
            Err(ParseFault::Memory) => Err(AllocError),
        },
    }
}

fn kind_word(alloc: Global, kind: &ParseKind) -> Result<Vec<u8>, AllocError> {
    match kind {
        ParseKind::Unexpected => Vec::from_slice(alloc, b"unexpected"),
        ParseKind::Depth => Vec::from_slice(alloc, b"too deep"),
        ParseKind::LeftOut(name) => {
            let mut word = Vec::from_slice(alloc, b"left out, ")?;
            word.extend_from_slice(name.text.as_slice())?;
            word.extend_from_slice(b",")?;
            Ok(word)
        }
    }
}

// What is wrong, the place of a fault, and the text from there on.
fn fault_told(alloc: Global, text: &[u8], place: u32, word: &[u8]) -> Result<Vec<u8>, AllocError> {
    let place_text = format!(in alloc; " at {}: ", place)?;
    let mut told = Vec::from_slice(alloc, word)?;
    told.extend_from_slice(place_text.as_bytes())?;
    push_shown(&mut told, text.get(place as usize..).unwrap_or(b""))?;
    Ok(told)
}

// Bytes of the text, in which `^` is the end of a line.
fn push_shown(told: &mut Vec<u8>, text: &[u8]) -> Result<(), AllocError> {
    for byte in text {
        let shown = if *byte == b'\n' { b'^' } else { *byte };
        told.push(shown)?;
    }
    Ok(())
}

// The statements in one line, and each function in a line of its own.
fn tree_told(alloc: Global, text: &[u8], tree: &FileTree) -> Result<Vec<u8>, AllocError> {
    let mut print = Print {
        alloc,
        tree,
        bytes: Vec::new(alloc),
    };
    print.stmts(tree.stmts.as_slice())?;
    let mut told = print.bytes;
    for function in tree.functions.as_slice() {
        push_function(alloc, &mut told, text, function)?;
    }
    Ok(told)
}

fn push_function(
    alloc: Global,
    told: &mut Vec<u8>,
    text: &[u8],
    function: &FunSpan,
) -> Result<(), AllocError> {
    let ordinal = format!(in alloc; "\n    {} ", function.ordinal)?;
    told.extend_from_slice(ordinal.as_bytes())?;
    told.extend_from_slice(function.name.as_slice())?;
    let span = format!(in alloc; " {} to {}: ", function.span.from, function.span.to)?;
    told.extend_from_slice(span.as_bytes())?;
    let from = function.span.from as usize;
    let end = (function.span.to as usize).saturating_add(1);
    push_shown(told, text.get(from..end).unwrap_or(b""))?;
    Ok(())
}
