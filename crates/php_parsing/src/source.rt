//! The lexemes of a text, and the pieces that are made of them.

use crate::actions::Actions;
use php_grammar::lexeme::Lexeme;
use php_grammar::part::Rule;
use php_grammar::token::Kind;
use php_pieces::stack::{Stack, push_leaf};
use php_reader::Pieces;
use std::alloc::{AllocError, Global};

/// Lexemes that are left, and what was made of those before them.
#[derive(Drop)]
pub struct Source<'t, A> {
    pub alloc: Global,
    pub actions: A,
    pub left: &'t [Lexeme<'t>],
    pub stack: Stack<'t>,
}

impl<'t, A: Actions> Pieces for Source<'t, A> {
    ghost use Rattle.php_pieces.specs.Pieces.{values_of};

    ghost left = { λ source. source.left.now };

    ghost values = { λ source. values_of source.stack };

    fn is_at_end(&self) -> bool {
        self.left.is_empty()
    }

    fn count(&self) -> usize {
        self.left.len()
    }

    fn peek(&self) -> Kind {
        match self.left {
            [] => Kind::End,
            [token, ..] => token.kind,
        }
    }

    fn take(&mut self) -> Result<(), AllocError> {
        let left = self.left;
        if left.is_empty() {
            return Ok(());
        }
        push_leaf(&mut self.stack, &left[0])?;
        self.left = &left[1..];
        Ok(())
    }

    fn reduce(&mut self, rule: Rule) -> Result<(), AllocError> {
        self.actions.reduce(self.alloc, rule, &mut self.stack)
    }

    fn join(&mut self) -> Result<(), AllocError> {
        self.actions.join(self.alloc, &mut self.stack)
    }
}
