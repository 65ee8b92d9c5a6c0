// One step of a run, whatever comes next.

ghost use Rattle.std.specs.Prelude.{◌≡◌, IfOk};
ghost use Rattle.php_world.specs.Naming.{Naming};
ghost use Rattle.php_meaning.specs.Run.{Look};
ghost use Rattle.php_bodies.specs.Look.{look_in};
ghost use Rattle.php_bodies.specs.Whole.{AreBodies};
ghost use Rattle.php_state.specs.declared.program.Program.{Program};
ghost use Rattle.php_state.specs.Fits.{Keeps};
ghost use Rattle.php_rest.specs.declared.now.Now.TheVariants as now;
ghost use Rattle.php_machine.specs.Whole.{Continues};

use crate::machine::{Machine, Next};
use php_bodies::Bodies;
use php_rest::{Ending, Now};
use php_stepping::Steps;
use php_tally::End;
use php_values::Value;
use std::alloc::{AllocError, Global};

impl<'a> Machine<'a> {
    // A value is given to the newest frame; without one the run is done.
    fn give<S: Steps>(
        &mut self,
        alloc: Global,
        steps: &S,
        value: Value,
    ) -> Result<Next<'a>, AllocError>
        ensures law { IfOk result (λ next. (look : Naming → Look) → Continues look self.old self.new (now.Give value) next) }
        ensures keeps { IfOk result (λ _. Keeps self.old.state self.new.state) }
    {
        match self.stack.pop() {
            None => Ok(Next::Over(End::Done)),
            Some(frame) => {
                let now = steps.give(alloc, frame, value, &mut self.state, &mut self.stack)?;
                Ok(Next::More(now))
            }
        }
    }

    // The newest frame is told how a statement ended; without one the run is done.
    fn end<S: Steps>(
        &mut self,
        alloc: Global,
        steps: &S,
        ending: Ending,
    ) -> Result<Next<'a>, AllocError>
        ensures law { IfOk result (λ next. (look : Naming → Look) → Continues look self.old self.new (now.End ending) next) }
        ensures keeps { IfOk result (λ _. Keeps self.old.state self.new.state) }
    {
        match self.stack.pop() {
            None => Ok(Next::Over(End::Done)),
            Some(frame) => {
                let now = steps.end(alloc, frame, ending, &mut self.state, &mut self.stack)?;
                Ok(Next::More(now))
            }
        }
    }

    // A step that is seen from outside by a tick at most.
    fn step<S: Steps>(
        &mut self,
        alloc: Global,
        steps: &S,
        now: Now<'a>,
    ) -> Result<Next<'a>, AllocError>
        ensures law { IfOk result (λ next. (look : Naming → Look) → Continues look self.old self.new now.entry next) }
        ensures keeps { IfOk result (λ _. Keeps self.old.state self.new.state) }
    {
        let stepped = steps.step(alloc, now, &mut self.state, &mut self.stack)?;
        Ok(self.counted(stepped))
    }

    /// One step of a run.
    pub(crate) fn one<S: Steps>(
        &mut self,
        alloc: Global,
        steps: &S,
        bodies: &Bodies<'a>,
        now: Now<'a>,
    ) -> Result<Next<'a>, AllocError>
        ensures law { IfOk result (λ next. (p : Program) → AreBodies p bodies.now → Continues (look_in p) self.old self.new now.entry next) }
        ensures keeps { IfOk result (λ _. Keeps self.old.state self.new.state) }
    {
        match now {
            Now::Print(text, behind) => {
                let next = self.print(text, behind)?;
                Ok(next)
            }
            Now::Exit => Ok(Next::Over(End::Done)),
            Now::Fail(why) => Ok(self.fail(why)),
            Now::Enter(owner) => {
                let found = bodies.find(alloc, owner)?;
                let next = self.enter(alloc, steps, owner, found)?;
                Ok(next)
            }
            Now::Give(value) => {
                let next = self.give(alloc, steps, value)?;
                Ok(next)
            }
            Now::End(ending) => {
                let next = self.end(alloc, steps, ending)?;
                Ok(next)
            }
            other => {
                let next = self.step(alloc, steps, other)?;
                Ok(next)
            }
        }
    }
}
