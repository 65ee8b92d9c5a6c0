//! The loads.

use crate::form::{Form, generated, nested, repeated};
use crate::plan::Plan;
use php_lexer::{LexFault, lex};
use php_parse::parse;
use php_parser::{ParseFault, ParseKind};
use std::alloc::{AllocError, Global};
use std::io::BufRead;

/// What parsing told, with places in bytes from 0.
#[derive(Clone, Copy, Debug, Drop)]
pub enum Told {
    NoLoad,
    /// How many statements stand in the file itself, and how many functions have a body.
    Tree(usize, usize),
    Unexpected(u32),
    LeftOut(u32),
    Deep(u32),
    NoTokens(u32),
    /// Longer than the tokens of a text may be.
    TooLong,
    /// Want of memory, or of input.
    Failed,
}

const MAX_TEXT_BYTES: usize = 1_048_576;

fn told_of(alloc: Global, text: &[u8]) -> Told {
    if text.len() > MAX_TEXT_BYTES {
        return Told::TooLong;
    }
    match lex(alloc, text) {
        Err(LexFault::At { place, .. }) => Told::NoTokens(place),
        Err(LexFault::Memory) => Told::Failed,
        Ok(tokens) => match parse(alloc, text, &tokens) {
            Ok(tree) => Told::Tree(tree.stmts.len(), tree.functions.len()),
            Err(fault) => told_of_fault(&fault),
        },
    }
}

fn told_of_fault(fault: &ParseFault) -> Told {
    match fault {
        ParseFault::Memory => Told::Failed,
        ParseFault::At { place, kind } => match kind {
            ParseKind::Unexpected => Told::Unexpected(*place),
            ParseKind::LeftOut(_) => Told::LeftOut(*place),
            ParseKind::Depth => Told::Deep(*place),
        },
    }
}

fn rest_of<R: BufRead>(alloc: Global, input: &mut R) -> Result<Vec<u8>, AllocError> {
    let mut text = Vec::new(alloc);
    match input.read_to_end(&mut text) {
        Ok(_) => Ok(text),
        Err(_) => Err(AllocError),
    }
}

fn text_of<R: BufRead>(alloc: Global, plan: &Plan, input: &mut R) -> Result<Vec<u8>, AllocError> {
    let size = plan.size;
    match plan.form {
        Form::Generated => generated(alloc, size),
        Form::Operands => repeated(alloc, b"1+", size.saturating_sub(1), b"1;"),
        Form::Statements => repeated(alloc, b"1;", size, b""),
        Form::Late => repeated(alloc, b"1;", size, b")"),
        Form::Nested(nest) => nested(alloc, &nest, size),
        Form::Text => rest_of(alloc, input),
    }
}

/// Parses a text as often as the plan says, and at least once.
pub fn run<R: BufRead>(alloc: Global, plan: &Plan, input: &mut R) -> Told {
    let Ok(text) = text_of(alloc, plan, input) else {
        return Told::Failed;
    };
    for _ in 1..plan.times {
        drop(told_of(alloc, &text));
    }
    told_of(alloc, &text)
}
