// A run of a page that is under way.
ghost use Rattle.std.specs.Prelude.{◌≡◌, ℕ, List, [], false, IfOk, OnOk, OnErr};
ghost use Rattle.php_frames.specs.Course.{Course, Prints, Ticks, Stops};
ghost use Rattle.php_frames.specs.Events.{Done};
ghost use Rattle.php_frames.specs.Progress.{resumed, closed, script_result};
ghost use Rattle.php_frames.specs.Run.{run};
ghost use Rattle.php_frames.specs.RunResult.{result_from};

use std::alloc::{AllocError, Global};

/// A run that is under way. Each call adds what one step of the run does; a run whose budget is spent does nothing more.
#[derive(Debug, Drop)]
pub struct PageRun {
    output: Vec<u8>,
    left: u32,
    spent: bool,
}

impl PageRun {
    /// A run that has done nothing yet. The budget is in ticks.
    pub fn new(alloc: Global, budget: u32) -> Self
        ensures { (path : List ℕ) (rest : Course) → resumed path result rest ≡ result_from (script_result path []) (run budget rest) }
    {
        PageRun {
            output: Vec::new(alloc),
            left: budget,
            spent: false,
        }
    }

    #[tactic(auto, using(crate::proofs::Runs::one_tick_less))]
    /// Takes one tick. Where none is left, the run ends.
    pub fn tick(&mut self)
        ensures { (path : List ℕ) (rest : Course) → resumed path self.old (Ticks rest) ≡ resumed path self.new rest }
    {
        if self.left == 0 {
            self.spent = true;
        } else {
            self.left -= 1;
        }
    }

    /// Puts bytes out. After an error the run is as before.
    pub fn print(&mut self, bytes: &[u8]) -> Result<(), AllocError>
        ensures ok { OnOk result ((path : List ℕ) (rest : Course) → resumed path self.old (Prints bytes.now rest) ≡ resumed path self.new rest) }
        ensures err { OnErr result ((path : List ℕ) (rest : Course) → resumed path self.old rest ≡ resumed path self.new rest) }
    {
        if self.spent {
            return Ok(());
        }
        self.output.extend_from_slice(bytes)?;
        Ok(())
    }

    /// What was put out.
    pub fn output(&self) -> &[u8]
        ensures { result.now ≡ self.now.output.items }
    {
        &self.output
    }

    /// Whether the run ended because its budget was spent.
    pub fn is_spent(&self) -> bool
        ensures { result ≡ self.now.spent }
    {
        self.spent
    }

    #[tactic(auto, using(crate::proofs::Runs::nothing_follows))]
    /// Ends the run: where its budget is not spent, it is done.
    pub fn finish(self) -> Self
        ensures same { result ≡ self }
        ensures done { (path : List ℕ) → resumed path self (Stops Done) ≡ closed path result }
    {
        self
    }
}
