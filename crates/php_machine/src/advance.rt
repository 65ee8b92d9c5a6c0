// The steps of a run, one after another.

ghost use Rattle.std.specs.Prelude.{◌≡◌, IfOk};
ghost use Rattle.php_world.specs.Naming.{Naming};
ghost use Rattle.php_state.specs.Fits.{Fits, Keeps};
ghost use Rattle.php_state.specs.declared.program.Program.{Program};
ghost use Rattle.php_tally.specs.Comes.{closed, end_of};
ghost use Rattle.php_bodies.specs.Look.{look_in};
ghost use Rattle.php_bodies.specs.Whole.{AreBodies};
ghost use Rattle.php_machine.specs.Whole.{whole};

use crate::machine::{Machine, Next};
use php_bodies::Bodies;
use php_rest::Now;
use php_stepping::Steps;
use php_tally::End;
use std::alloc::{AllocError, Global};

impl<'a> Machine<'a> {
    /// Runs to the end. A run of 2^64 steps ends as where memory is short.
    pub fn advance<S: Steps>(
        &mut self,
        alloc: Global,
        steps: &S,
        bodies: &Bodies<'a>,
        now: Now<'a>,
    ) -> Result<End<'a>, AllocError>
        ensures law { IfOk result (λ end. (p : Program) → AreBodies p bodies.now → (t : Naming) → Fits t self.new.state → closed self.new.tally (end_of end) ≡ whole (look_in p t) t self.old now.entry) }
        ensures keeps { IfOk result (λ _. Keeps self.old.state self.new.state) }
    {
        let mut next = now;
        'steps: for _step in 0..u64::MAX {
            match self.one(alloc, steps, bodies, next)? {
                Next::More(now) => next = now,
                Next::Over(end) => return Ok(end),
            }
        }
        Err(AllocError)
    }
}
