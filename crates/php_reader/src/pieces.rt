//! The tokens that are left, and what is made of those that are taken.

ghost use Rattle.std.specs.Prelude.{◌≡◌, List, length, OnOk};
ghost use Rattle.php_grammar.specs.Values.{Value};
ghost use Rattle.php_grammar.specs.Reads as spec;
ghost use Rattle.php_grammar.specs.declared.lexeme.Lexeme.{Lexeme};
ghost use Rattle.php_reading.specs.Reading.{HasTaken, is_empty};
ghost use Rattle.php_pieces.specs.Stacks.{reduced, linked_on};

use php_grammar::part::Rule;
use php_grammar::token::Kind;
use std::alloc::AllocError;

/// Tokens, and a stack of what has been made of those before them.
pub trait Pieces {
    /// The tokens that are left.
    ghost left: { Self → List Lexeme };

    /// What is on the stack, the newest first.
    ghost values: { Self → List Value };

    /// Whether no token is left.
    fn is_at_end(&self) -> bool
        ensures { result ≡ is_empty (left self.now) };

    /// How many tokens are left.
    fn count(&self) -> usize
        ensures { result ≡ length (left self.now) };

    /// The kind of the next token.
    fn peek(&self) -> Kind
        ensures { result ≡ spec.peek (left self.now) };

    /// Takes the next token, if there is one, and puts it on the stack.
    fn take(&mut self) -> Result<(), AllocError>
        ensures { OnOk result (HasTaken (left self.old) (values self.old) (left self.new) (values self.new)) };

    /// Makes one of what the symbols of a rule gave.
    fn reduce(&mut self, rule: Rule) -> Result<(), AllocError>
        ensures made { OnOk result (values self.new ≡ reduced rule (values self.old)) }
        ensures left { left self.new ≡ left self.old };

    /// Joins the first operand of a level to what the level goes on with.
    fn join(&mut self) -> Result<(), AllocError>
        ensures made { OnOk result (values self.new ≡ linked_on (values self.old)) }
        ensures left { left self.new ≡ left self.old };
}
