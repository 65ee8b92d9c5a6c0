// What a run that is under way has come to.

ghost use Rattle.std.specs.Prelude.{◌≡◌, IfOk, OnOk, MatchBool};
ghost use Rattle.app_load.specs.CopyParts.{IsGone};
ghost use Rattle.app_load.specs.Entries.{Entry, file};
ghost use Rattle.app_load.specs.Files.{Tree};
ghost use Rattle.php_meaning.specs.Course.{Course, Prints, Ticks, Turns, Enters, Loop, Then};
ghost use Rattle.php_meaning.specs.Events.{Budget};
ghost use Rattle.php_meaning.specs.Run.{Look, run};
ghost use Rattle.php_meaning.specs.RunResult.{result_of};
ghost use Rattle.php_meaning.specs.Statements.{turn};
ghost use Rattle.php_meaning.specs.World.{World};
ghost use Rattle.php_rest.specs.Views.{entry_of};
ghost use Rattle.php_tally.specs.Comes.{comes_to, closed, result_in, end_of, EntersAs};

use crate::run::{End, Run};
use php_rest::Owner;
use std::alloc::{AllocError, Global};

/// What a run that is under way has come to. Contracts see it by `comes_to`: what it comes to once its course that is left
/// is added.
#[derive(Drop)]
pub struct Tally<'a> {
    output: Vec<u8>,
    entries: Vec<Owner<'a>>,
    left: u32,
}

impl<'a> Tally<'a> {
    /// A run that has done nothing yet. The budget is in ticks.
    pub fn new(alloc: Global, budget: u32) -> Tally<'a>
        ensures { (look : Look) (c : Course) → comes_to look result c ≡ result_of (run look budget c) }
    {
        Tally {
            output: Vec::new(alloc),
            entries: Vec::new(alloc),
            left: budget,
        }
    }

    /// Takes one tick, if one is left; else the run ends.
    #[tactic(auto, using(crate::proofs::Runs::one_tick, crate::proofs::Runs::one_turn, crate::proofs::Runs::no_tick, crate::proofs::Runs::no_turn))]
    pub fn tick(&mut self) -> bool
        ensures ticks { (look : Look) (w : World) (c : Course) → MatchBool result (comes_to look self.old (Ticks w c) ≡ comes_to look self.new c) (comes_to look self.old (Ticks w c) ≡ closed self.new Budget) }
        ensures turns { (look : Look) (l : Loop) (w : World) (k : Then) → MatchBool result (comes_to look self.old (Turns l w k) ≡ comes_to look self.new (turn l w k)) (comes_to look self.old (Turns l w k) ≡ closed self.new Budget) }
    {
        if self.left == 0 {
            return false;
        }
        self.left -= 1;
        true
    }

    /// Puts bytes out.
    #[tactic(auto, using(crate::proofs::Runs::one_print))]
    pub fn print(&mut self, bytes: &[u8]) -> Result<(), AllocError>
        ensures { OnOk result ((look : Look) (c : Course) → comes_to look self.old (Prints bytes.now c) ≡ comes_to look self.new c) }
    {
        self.output.extend_from_slice(bytes)?;
        Ok(())
    }

    /// Notes that a file or function is entered, whose body stands at its entry.
    #[tactic(auto, using(crate::proofs::Enters::entered))]
    pub fn enter(&mut self, owner: Owner<'a>) -> Result<(), AllocError>
        ensures { OnOk result ((look : Look) → EntersAs look self.old self.new (entry_of owner.entry)) }
    {
        self.entries.push(owner)?;
        Ok(())
    }

    /// The run ends.
    pub fn finish(self, end: End<'a>) -> Run<'a>
        ensures { result_in result ≡ closed self.entry (end_of end.entry) }
    {
        let Tally {
            output,
            entries,
            ..
        } = self;
        Run {
            output,
            entries,
            end,
        }
    }
}
