//! A token as the grammar sees it.

ghost use Rattle.std.specs.Prelude.{◌≡◌};

use crate::token::{Detail, Kind};
use php_tree::expr::QuotePart;
use sqlite_items::Items;
use std::marker::Model;

/// Bytes that stand elsewhere, seen as their list.
#[derive(Drop)]
pub struct Bytes<'t> {
    bytes: &'t [u8],
}

impl<'t> Model for Bytes<'t> {
    ghost use Rattle.std.specs.Prelude.{List, ℕ};

    ghost Value = { List ℕ };

    ghost view = { λ b. b.bytes.now };
}

impl<'t> Bytes<'t> {
    pub fn new(bytes: &'t [u8]) -> Bytes<'t>
        ensures { result ≡ bytes.now }
    {
        Bytes { bytes }
    }

    pub fn as_slice(&self) -> &'t [u8]
        ensures { result.now ≡ self.now }
    {
        self.bytes
    }
}

/// A token as the grammar sees it: its kind, which of that kind it is, its place and line, and what it stands for.
#[derive(Drop)]
pub struct Lexeme<'t> {
    pub kind: Kind,
    pub detail: Detail,
    /// The place of its first byte, from 0.
    pub at: u32,
    /// The line of its first byte, from 1.
    pub line: u32,
    /// The number of a variable in the file's list of names.
    pub number: u32,
    /// The value of a whole number.
    pub int: i64,
    /// A word, a variable's name or the bytes of a text.
    pub text: Bytes<'t>,
    /// The parts of a text with interpolation.
    pub parts: Items<QuotePart<()>>,
}
