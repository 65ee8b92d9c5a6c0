//! The state of a reader, and its steps that read no part.

ghost use Rattle.std.specs.Prelude.{◌≡◌, [], ◌∷◌, IfOk, IfErr, OnOk};
ghost use Rattle.php_grammar.specs.declared.part.Symbol.TheVariants.{Tok as tok};
ghost use Rattle.php_reading.specs.Fronts.{opening};
ghost use Rattle.php_reading.specs.Reading.{HasReadAll, HasStoppedIn};
ghost use Rattle.php_reading.specs.Stack.{values_after, below};

use crate::pieces::Pieces;
use backward_list::Backward;
use php_grammar::part::Rule;
use php_grammar::rules;
use php_grammar::token::{Fault, Kind};
use php_reading::{Stop, Waiting};
use std::alloc::AllocError;

/// The tokens that are left with what was made of those before them, and what waits for the part that is read.
#[derive(Drop)]
pub struct Reader<P> {
    pub pieces: P,
    pub waiting: Backward<Waiting>,
}

impl<P: Pieces> Reader<P> {
    /// Takes a token of the kind. Gives how much of the budget it leaves.
    pub fn take(&mut self, kind: Kind, budget: usize) -> Result<usize, Stop>
        ensures ok { IfOk result (λ low. HasReadAll budget (tok kind ∷ []) (P.left self.old.pieces) (P.values self.old.pieces) low (P.left self.new.pieces) (P.values self.new.pieces)) }
        ensures err { IfErr result (λ stop. HasStoppedIn budget (tok kind ∷ []) (P.left self.old.pieces) stop (P.left self.new.pieces)) }
        ensures waiting { self.new.waiting ≡ self.old.waiting }
    {
        if self.pieces.is_at_end() {
            return Err(Stop::At(Fault::Bad));
        }
        if self.pieces.peek() != kind {
            return Err(Stop::At(Fault::Bad));
        }
        if budget == 0 {
            return Err(Stop::At(Fault::Deep));
        }
        self.pieces.take()?;
        Ok(budget - 1)
    }

    /// Takes the token that a rule begins with, where it begins with one.
    pub fn take_opening(&mut self, rule: Rule, budget: usize) -> Result<usize, Stop>
        ensures ok { IfOk result (λ low. HasReadAll budget (opening rule) (P.left self.old.pieces) (P.values self.old.pieces) low (P.left self.new.pieces) (P.values self.new.pieces)) }
        ensures err { IfErr result (λ stop. HasStoppedIn budget (opening rule) (P.left self.old.pieces) stop (P.left self.new.pieces)) }
        ensures waiting { self.new.waiting ≡ self.old.waiting }
    {
        match rules::head(rule) {
            Some(kind) => self.take(kind, budget),
            None => Ok(budget),
        }
    }

    /// Makes all that waits for the part that has been read.
    pub fn unwind(&mut self) -> Result<(), AllocError>
        ensures values { OnOk result (P.values self.new.pieces ≡ values_after self.old.waiting (P.values self.old.pieces)) }
        ensures waiting { OnOk result (self.new.waiting ≡ below self.old.waiting) }
        ensures left { P.left self.new.pieces ≡ P.left self.old.pieces }
    {
        'waits: while let Some(Waiting::Tail(rule)) = self.waiting.pop() {
            self.pieces.reduce(rule)?;
        }
        Ok(())
    }
}
