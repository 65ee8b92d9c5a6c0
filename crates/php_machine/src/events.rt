// What is seen of a run from outside, but for entries.

ghost use Rattle.std.specs.Prelude.{◌≡◌, IfOk};
ghost use Rattle.php_world.specs.Naming.{Naming};
ghost use Rattle.php_meaning.specs.Run.{Look};
ghost use Rattle.php_rest.specs.Rest.{next_of, once_printed};
ghost use Rattle.php_rest.specs.declared.now.Now.{Now};
ghost use Rattle.php_rest.specs.declared.now.Now.TheVariants as now;
ghost use Rattle.php_machine.specs.declared.machine.Machine.{Machine};
ghost use Rattle.php_state.specs.Fits.{Keeps};
ghost use Rattle.php_stepping.specs.Alike.{GoesBy};
ghost use Rattle.php_machine.specs.Whole.{Continues};

use crate::machine::{Machine, Next};
use order_map::ByteText;
use php_meaning::FatalName;
use php_rest::{Ending, Now, Printed};
use php_stepping::Stepped;
use php_tally::End;
use php_values::Value;
use std::alloc::AllocError;

// What comes once bytes were put out.
fn behind_print<'a>(behind: Printed) -> Now<'a>
    ensures { (t : Naming) → once_printed behind ≡ next_of t result }
{
    match behind {
        Printed::Nothing => Now::End(Ending::Normal),
        Printed::One => Now::Give(Value::Int(1)),
        Printed::End => Now::Exit,
    }
}

impl<'a> Machine<'a> {
    /// Bytes are put out, where the output is not too long with them.

    pub(crate) fn print(&mut self, text: ByteText, behind: Printed) -> Result<Next<'a>, AllocError>
        ensures law { IfOk result (λ next. (look : Naming → Look) → Continues look self.old self.new (now.Print text behind) next) }
        ensures keeps { IfOk result (λ _. Keeps self.old.state self.new.state) }
    {
        let bytes = text.as_slice();
        if self.state.count_output(bytes.len()) {
            self.tally.print(bytes)?;
            return Ok(Next::More(behind_print(behind)));
        }
        Ok(Next::More(Now::Fail(FatalName::Size)))
    }

    /// The run ends with a fatal where it stands.
    #[tactic(auto, using(php_tally::proofs::Runs::stopped))]
    pub(crate) fn fail(&self, why: FatalName) -> Next<'a>
        ensures { (look : Naming → Look) → Continues look self.now self.now (now.Fail why) result }
    {
        Next::Over(End::Fatal(why, self.state.scene.file, self.state.scene.line))
    }

    /// What a step gave, its tick counted.

    pub(crate) fn counted(&mut self, stepped: Stepped<'a>) -> Next<'a>
        ensures law { (look : Naming → Look) (was : Machine) (next : Now) → was.tally ≡ self.old.tally → GoesBy was.state self.old.state was.stack self.old.stack (λ t. next_of t next) stepped.entry → Continues look was self.new next result }
        ensures keeps { self.new.state ≡ self.old.state }
    {
        match stepped {
            Stepped::Quiet(now) => Next::More(now),
            Stepped::Ticked(now) => {
                if self.tally.tick() {
                    return Next::More(now);
                }
                Next::Over(End::Budget)
            }
        }
    }
}
