//! Reads parts.

ghost use Rattle.std.specs.Prelude.{◌≡◌, ◌<◌, [], ◌∷◌, IfOk, IfErr, OnOk, None, Some};
ghost use Rattle.php_grammar.specs.Grammar as grammar;
ghost use Rattle.php_grammar.specs.declared.part.Context.TheVariants as c;
ghost use Rattle.php_grammar.specs.declared.part.Part.TheVariants as p;
ghost use Rattle.php_reading.specs.Fronts.{front};
ghost use Rattle.php_reading.specs.Reading.{HasRead, HasStopped, HasReadAll, HasStoppedIn};
ghost use Rattle.php_reading.specs.Stack.{values_after, below};

use crate::levels::{beginning, going_on, inmost, is_prefix, outer, rank};
use crate::pieces::Pieces;
use crate::reader::Reader;
use php_grammar::choice::{choose, goes_on};
use php_grammar::part::{Context, Level, Part, Rule, Symbol};
use php_grammar::rules;
use php_grammar::token::Fault;
use php_reading::{Stop, Waiting};

impl<P: Pieces> Reader<P> {
    /// Reads a part. Gives how much of the budget is left at its deepest token.
    #[cycle(part)]
    pub fn read(&mut self, part: Part, budget: usize) -> Result<usize, Stop>
        ensures ok { IfOk result (λ low. HasRead budget part (P.left self.old.pieces) (P.values self.old.pieces) low (P.left self.new.pieces) (P.values self.new.pieces)) }
        ensures err { IfErr result (λ stop. HasStopped budget part (P.left self.old.pieces) stop (P.left self.new.pieces)) }
        ensures waiting { OnOk result (self.new.waiting ≡ self.old.waiting) }
    {
        if let Part::Level(Context::InFull, level) = part {
            return self.read_full(level, budget);
        }
        match rules::operand(part) {
            Some(first) => self.read_level(part, first, budget),
            None => self.read_ruled(part, budget),
        }
    }

    /// A level of operators of an expression: its first operand, read where its first token says, and what the levels
    /// around that go on with.
    #[cycle(part)]
    fn read_full(&mut self, top: Level, budget: usize) -> Result<usize, Stop>
        ensures ok { IfOk result (λ low. HasRead budget (p.Level c.InFull top) (P.left self.old.pieces) (P.values self.old.pieces) low (P.left self.new.pieces) (P.values self.new.pieces)) }
        ensures err { IfErr result (λ stop. HasStopped budget (p.Level c.InFull top) (P.left self.old.pieces) stop (P.left self.new.pieces)) }
        ensures waiting { OnOk result (self.new.waiting ≡ self.old.waiting) }
    {
        let mut level = inmost(top, self.pieces.peek());
        let mut low = self.read_first(beginning(level), budget)?;
        'outwards: loop {
            let Some(at) = going_on(level, top, self.pieces.peek()) else {
                return Ok(low);
            };
            if low == 0 {
                return Err(Stop::At(Fault::Deep));
            }
            let lower = self.read(Part::Operators(Context::InFull, at), budget - 1)?;
            self.pieces.join()?;
            low = lower.min(low - 1);
            if rank(at) == rank(top) {
                return Ok(low);
            }
            level = outer(at);
        }
    }

    /// What an operand begins with.
    #[cycle(part)]
    fn read_first(&mut self, part: Part, budget: usize) -> Result<usize, Stop>
        requires { grammar.operand part ≡ None }
        ensures ok { IfOk result (λ low. HasRead budget part (P.left self.old.pieces) (P.values self.old.pieces) low (P.left self.new.pieces) (P.values self.new.pieces)) }
        ensures err { IfErr result (λ stop. HasStopped budget part (P.left self.old.pieces) stop (P.left self.new.pieces)) }
        ensures waiting { OnOk result (self.new.waiting ≡ self.old.waiting) }
    {
        if let Part::UnaryPart = part {
            if !is_prefix(self.pieces.peek()) {
                return self.read_ruled(Part::Prim(true), budget);
            }
        }
        self.read_ruled(part, budget)
    }

    /// A level of operators: its first operand, and what it goes on with.
    #[cycle(part)]
    fn read_level(&mut self, part: Part, first: Part, budget: usize) -> Result<usize, Stop>
        requires { grammar.operand part ≡ Some first }
        ensures ok { IfOk result (λ low. HasRead budget part (P.left self.old.pieces) (P.values self.old.pieces) low (P.left self.new.pieces) (P.values self.new.pieces)) }
        ensures err { IfErr result (λ stop. HasStopped budget part (P.left self.old.pieces) stop (P.left self.new.pieces)) }
        ensures waiting { OnOk result (self.new.waiting ≡ self.old.waiting) }
    {
        let low = self.read(first, budget)?;
        if !goes_on(part, self.pieces.peek()) {
            return Ok(low);
        }
        if low == 0 {
            return Err(Stop::At(Fault::Deep));
        }
        let lower = self.read(rules::steps(part), budget - 1)?;
        self.pieces.join()?;
        Ok(lower.min(low - 1))
    }

    /// A part that has rules.
    #[cycle(part)]
    fn read_ruled(&mut self, part: Part, budget: usize) -> Result<usize, Stop>
        requires { grammar.operand part ≡ None }
        ensures ok { IfOk result (λ low. HasRead budget part (P.left self.old.pieces) (P.values self.old.pieces) low (P.left self.new.pieces) (P.values self.new.pieces)) }
        ensures err { IfErr result (λ stop. HasStopped budget part (P.left self.old.pieces) stop (P.left self.new.pieces)) }
        ensures waiting { OnOk result (self.new.waiting ≡ self.old.waiting) }
    {
        let low = self.descend(part, budget)?;
        self.unwind()?;
        Ok(low)
    }

    /// Reads a part up to its end, where the rules whose last part is read wait to be made, above a floor.
    #[cycle(part)]
    fn descend(&mut self, part: Part, budget: usize) -> Result<usize, Stop>
        requires { grammar.operand part ≡ None }
        ensures ok { IfOk result (λ low. HasRead budget part (P.left self.old.pieces) (P.values self.old.pieces) low (P.left self.new.pieces) (values_after self.new.waiting (P.values self.new.pieces))) }
        ensures err { IfErr result (λ stop. HasStopped budget part (P.left self.old.pieces) stop (P.left self.new.pieces)) }
        ensures waiting { OnOk result (below self.new.waiting ≡ self.old.waiting) }
    {
        self.waiting.push(Waiting::Floor)?;
        let mut part = part;
        let mut budget = budget;
        let mut lowest = budget;
        'down: loop {
            let Some(rule) = choose(part, self.pieces.peek()) else {
                return Err(Stop::At(Fault::Bad));
            };
            budget = budget.saturating_sub(rules::weight(rule));
            lowest = self.read_front(rule, budget)?.min(lowest);
            let Some(last) = rules::tail(rule) else {
                self.pieces.reduce(rule)?;
                return Ok(lowest);
            };
            self.waiting.push(Waiting::Tail(rule))?;
            if let Some(_) = rules::operand(last) {
                return Ok(self.read(last, budget)?.min(lowest));
            }
            part = last;
        }
    }

    /// Reads a rule without its last part.
    #[cycle(part)]
    fn read_front(&mut self, rule: Rule, budget: usize) -> Result<usize, Stop>
        ensures ok { IfOk result (λ low. HasReadAll budget (front rule) (P.left self.old.pieces) (P.values self.old.pieces) low (P.left self.new.pieces) (P.values self.new.pieces)) }
        ensures err { IfErr result (λ stop. HasStoppedIn budget (front rule) (P.left self.old.pieces) stop (P.left self.new.pieces)) }
        ensures waiting { OnOk result (self.new.waiting ≡ self.old.waiting) }
    {
        let low = self.take_opening(rule, budget)?;
        let lower = self.read_all(rules::middle(rule), budget)?;
        Ok(lower.min(low))
    }

    /// Reads symbols one after the other.
    #[cycle(part)]
    fn read_all(&mut self, symbols: &'static [Symbol], budget: usize) -> Result<usize, Stop>
        ensures ok { IfOk result (λ low. HasReadAll budget symbols.now (P.left self.old.pieces) (P.values self.old.pieces) low (P.left self.new.pieces) (P.values self.new.pieces)) }
        ensures err { IfErr result (λ stop. HasStoppedIn budget symbols.now (P.left self.old.pieces) stop (P.left self.new.pieces)) }
        ensures waiting { OnOk result (self.new.waiting ≡ self.old.waiting) }
    {
        let mut symbols = symbols;
        let mut lowest = budget;
        'symbol: while let Some((first, others)) = symbols.split_first() {
            lowest = self.read_symbol(*first, budget)?.min(lowest);
            symbols = others;
        }
        Ok(lowest)
    }

    #[cycle(part)]
    fn read_symbol(&mut self, symbol: Symbol, budget: usize) -> Result<usize, Stop>
        ensures ok { IfOk result (λ low. HasReadAll budget (symbol ∷ []) (P.left self.old.pieces) (P.values self.old.pieces) low (P.left self.new.pieces) (P.values self.new.pieces)) }
        ensures err { IfErr result (λ stop. HasStoppedIn budget (symbol ∷ []) (P.left self.old.pieces) stop (P.left self.new.pieces)) }
        ensures waiting { OnOk result (self.new.waiting ≡ self.old.waiting) }
    {
        match symbol {
            Symbol::Tok(kind) => self.take(kind, budget),
            Symbol::Sub(part) => self.read(part, budget),
        }
    }
}
