//! The texts that are parsed.

use crate::nest::{Nest, nest_named};
use std::alloc::{AllocError, Global};

/// What is repeated in a text.
#[derive(Clone, Copy, Debug, Drop)]
pub enum Form {
    /// Functions, until one more would be near the size in bytes.
    Generated,
    /// Operands of one sum, in one line.
    Operands,
    /// Statements.
    Statements,
    /// Statements, and then a token that no file has there.
    Late,
    /// What one nesting opens, what stands inside, and what closes it.
    Nested(Nest),
    /// The rest of the input.
    Text,
}

impl Form {
    /// The form of a word.
    pub fn named(word: &str) -> Option<Form> {
        match word {
            "generated" => Some(Form::Generated),
            "operands" => Some(Form::Operands),
            "statements" => Some(Form::Statements),
            "late" => Some(Form::Late),
            "text" => Some(Form::Text),
            _ => nest_named(word).map(|nest| Form::Nested(nest)),
        }
    }
}

const OPEN_TAG: &[u8] = b"<?php\n";

/// Bytes that are left free for one more function.
const SPARE_BYTES: usize = 400;

fn push_number(text: &mut Vec<u8>, alloc: Global, number: u32) -> Result<(), AllocError> {
    let digits = format!(in alloc; "{}", number)?;
    text.extend_from_slice(digits.as_bytes())?;
    Ok(())
}

fn push_function(text: &mut Vec<u8>, alloc: Global, number: u32) -> Result<(), AllocError> {
    text.extend_from_slice(b"function total_")?;
    push_number(text, alloc, number)?;
    text.extend_from_slice(
        b"($items, $rate = 100) {\n    // adds up the items\n    $sum = 0;\n    foreach ($items as $key => $item) {\n        if ($item['price'] >= $rate && $key !== 'none') {\n            $sum += $item['price'] * ",
    )?;
    push_number(text, alloc, number)?;
    text.extend_from_slice(
        b";\n        } else { $sum .= \"n: $key\\n\"; }\n    }\n    return $sum;\n}\n",
    )?;
    Ok(())
}

/// Functions that add up, one after the other, below a size in bytes.
pub fn generated(alloc: Global, size: u32) -> Result<Vec<u8>, AllocError> {
    let mut text = Vec::from_slice(alloc, OPEN_TAG)?;
    let full = (size as usize).saturating_sub(SPARE_BYTES);
    for number in 0..size {
        if text.len() >= full {
            break;
        }
        push_function(&mut text, alloc, number)?;
    }
    Ok(text)
}

/// A piece, so many times, and what stands behind them.
pub fn repeated(
    alloc: Global,
    piece: &[u8],
    count: u32,
    last: &[u8],
) -> Result<Vec<u8>, AllocError> {
    let mut text = Vec::from_slice(alloc, OPEN_TAG)?;
    for _ in 0..count {
        text.extend_from_slice(piece)?;
    }
    text.extend_from_slice(last)?;
    Ok(text)
}

/// A nesting that opens so many times, as a statement.
pub fn nested(alloc: Global, nest: &Nest, count: u32) -> Result<Vec<u8>, AllocError> {
    let mut text = repeated(alloc, nest.opens, count, nest.inside)?;
    for _ in 0..count {
        text.extend_from_slice(nest.closes)?;
    }
    text.push(b';')?;
    Ok(text)
}
