//! Tokens and the list of them.

ghost use Rattle.std.specs.Prelude.{◌≡◌, ◌<◌, ◌++◌, [], ◌∷◌, length, map, slice_set, OnOk, OnErr};
ghost use Rattle.php_lexer.specs.Marks.{mark_of};

use crate::kinds::Kind;
use sqlite_items::Items;
use std::alloc::{AllocError, Global};
use std::marker::Model;

/// A token. Its text is its whole form in the source, quotes included.
#[derive(Debug, Drop)]
pub struct Token<'t> {
    pub kind: Kind,
    pub text: &'t [u8],
    /// The place of its first byte, from 0.
    pub at: u32,
    /// The line of its first byte, from 1.
    pub line: u32,
}

/// The tokens of a text in order, the end token last. Contracts see the list of what each token says.
#[derive(Debug, Drop)]
pub struct Tokens<'t> {
    list: Items<Token<'t>>,
}

impl<'t> Model for Tokens<'t> {
    ghost use Rattle.std.specs.Prelude.{List, map};
    ghost use Rattle.php_lexer.specs.Marks.{Mark, mark_of};

    ghost Value = { List Mark };

    ghost view = { λ tokens. map mark_of tokens.list };
}

impl<'t> Tokens<'t> {
    pub(crate) fn new(alloc: Global) -> Tokens<'t>
        ensures { result ≡ [] }
    {
        Tokens {
            list: Items::new(alloc),
        }
    }

    /// The tokens themselves.
    pub fn as_slice(&self) -> &[Token<'t>]
        ensures { map mark_of result.now ≡ self.now }
    {
        self.list.as_slice()
    }

    pub fn len(&self) -> usize
        ensures { result ≡ length self.now }
    {
        self.list.len()
    }

    pub(crate) fn push(&mut self, token: Token<'t>) -> Result<(), AllocError>
        ensures ok { OnOk result (self.new ≡ self.old ++ mark_of token.entry ∷ []) }
    {
        self.list.push(token)?;
        Ok(())
    }

    /// Puts a token at the place of another.
    pub(crate) fn set(&mut self, at: usize, token: Token<'t>)
        requires { at < length self.old }
        ensures { self.new ≡ slice_set self.old at (mark_of token.entry) }
    {
        self.list.set(at, token);
    }
}
