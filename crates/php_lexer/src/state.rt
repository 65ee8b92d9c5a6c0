//! Where reading stands.

ghost use Rattle.std.specs.Prelude.{◌≡◌, ◌≤◌, ◌+◌, ◌^◌, length, drop};
ghost use Rattle.less_terms.specs.Lines.{line_at};
ghost use Rattle.php_lexer.specs.Marks.{mark_of, mark_at};

use crate::bytes::cut;
use crate::kinds::Kind;
use crate::token::Token;
use less_terms::count_newlines;

/// The greatest text, in bytes.
pub const MAX_TEXT: usize = 1_048_576;

/// A place of a text, with its line.
#[derive(Clone, Copy, Debug)]
pub struct Cursor<'t> {
    pub text: &'t [u8],
    pub at: usize,
    pub line: u32,
    ghost within: { at ≤ length text.now },
    ghost small: { length text.now ≤ 1048576 },
    ghost lined: { line ≡ line_at text.now at },
}

impl<'t> Cursor<'t> {
    pub fn start(text: &'t [u8]) -> Cursor<'t>
        requires { length text.now ≤ 1048576 }
        ensures text { result.text ≡ text.entry }
        ensures at { result.at ≡ 0 }
    {
        Cursor {
            text,
            at: 0,
            line: 1,
        }
    }

    /// The text from the place on.
    pub fn rest(&self) -> &'t [u8]
        ensures value { result.now ≡ drop self.now.at self.now.text.now }
        ensures len { self.now.at + length result.now ≡ length self.now.text.now }
    {
        self.text.split_at(self.at).1
    }

    /// The place so many bytes on.
    pub fn past(&self, len: usize) -> Cursor<'t>
        requires { self.now.at + len ≤ length self.now.text.now }
        ensures text { result.text ≡ self.now.text }
        ensures at { result.at ≡ self.now.at + len }
    {
        let passed = count_newlines(cut(self.text, self.at, len));
        Cursor {
            text: self.text,
            at: self.at + len,
            line: self.line + passed as u32,
        }
    }

    /// The token of so many bytes here.
    pub fn token(&self, kind: Kind, len: usize) -> Token<'t>
        requires { self.now.at + len ≤ length self.now.text.now }
        ensures { mark_of result ≡ mark_at self.now.text.now kind self.now.at len }
    {
        Token {
            kind,
            text: cut(self.text, self.at, len),
            at: self.at as u32,
            line: self.line,
        }
    }
}

/// A place in or outside the code, with the count of braces that are open in an embedded expression.
#[derive(Clone, Copy, Debug)]
pub struct State<'t> {
    pub cursor: Cursor<'t>,
    pub is_outside: bool,
    pub depth: usize,
    ghost shallow: { depth ≤ cursor.at },
}

/// How many double-quoted texts are around, and the place of the innermost one's quote.
#[derive(Clone, Copy, Debug)]
pub struct Around {
    pub nest: usize,
    pub quote: usize,
}

/// A step's end: there is more to read, or the list is at its end.
#[derive(Clone, Copy, Debug)]
pub enum Next<'t> {
    More(State<'t>),
    Done(Cursor<'t>),
}

/// A quoted text: double or single, in so many others, and the place of its quote.
#[derive(Clone, Copy, Debug)]
pub struct Quoted {
    pub is_double: bool,
    pub nest: usize,
    pub quote: usize,
}
