//! What can stand at the front of a text.

ghost use Rattle.std.specs.Prelude.{◌≡◌, ◌<◌, ◌+◌, ◌^◌};
ghost use Rattle.php_lexer.specs.Front.{raw_len, shape_len};

use crate::fault::LexKind;
use crate::kinds::{Cast, Sign};

/// What stands at the front outside the code.
#[derive(Clone, Copy, Debug)]
pub enum Outer {
    End,
    /// So many bytes before the next open tag or the end.
    Inline(usize),
    /// `<?php`, with its white space so many bytes.
    Tag(usize),
    /// `<?=`
    Echo,
}

/// A token that is told by its form alone.
#[derive(Clone, Copy, Debug)]
pub enum Simple {
    Var,
    Word,
    Int(i64),
    Cast(Cast),
    Sign(Sign),
}

/// What stands at the front of code.
#[derive(Clone, Copy, Debug)]
pub enum Front {
    End,
    /// White space or a comment of so many bytes.
    Blank(usize),
    /// `?>`, with the line end that it swallows so many bytes.
    Close(usize),
    /// A token of so many bytes.
    Token(Simple, usize),
    /// `{`
    Open,
    /// `}`
    Shut,
    /// An opening quote, double or single.
    Quote(bool),
    /// A fault, so many bytes on.
    Fault(usize, LexKind),
}

/// Bytes of a quoted text that stand for bytes.
#[derive(Clone, Copy, Debug)]
pub enum Raw {
    /// So many bytes that stand for themselves.
    Plain(usize),
    /// An escape of so many bytes that stands for a byte.
    Byte(u8, usize),
    /// An escape of so many bytes that stands for a character.
    Char(u32, usize),
}

/// A variable in a text, by the lengths of its words.
#[derive(Clone, Copy, Debug)]
pub enum Shape {
    /// `$v`
    Var(usize),
    /// `$v[k]`
    Index(usize, usize),
    /// `$v[$w]`
    IndexVar(usize, usize),
    /// `$v->p`
    Property(usize, usize),
}

impl Raw {
    pub fn len(self) -> usize
        ensures { result ≡ raw_len self }
    {
        match self {
            Raw::Plain(len) => len,
            Raw::Byte(_, len) => len,
            Raw::Char(_, len) => len,
        }
    }
}

impl Shape {
    pub fn len(self) -> usize
        requires { shape_len self < 2 ^ 64 }
        ensures { result ≡ shape_len self }
    {
        match self {
            Shape::Var(name) => name + 1,
            Shape::Index(name, key) => name + key + 3,
            Shape::IndexVar(name, key) => name + key + 4,
            Shape::Property(name, property) => name + property + 3,
        }
    }
}

/// What stands at the front of a quoted text's body.
#[derive(Clone, Copy, Debug)]
pub enum Piece {
    End,
    /// The closing quote.
    Close,
    Raw(Raw),
    Var(Shape),
    /// `{` before `$`.
    Embedded,
    /// A fault, so many bytes on.
    Fault(usize, LexKind),
}
