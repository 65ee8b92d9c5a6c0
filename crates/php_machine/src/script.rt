// A whole run.

ghost use Rattle.std.specs.Prelude.{◌≡◌, IfOk};
ghost use Rattle.php_state.specs.Linked.{IsLinked};
ghost use Rattle.php_machine.specs.ComesTo.{ComesTo};
ghost use Rattle.php_machine.specs.Opening.{input_of};

use crate::machine::Machine;
use crate::opening::{Input, begin};
use php_bodies::Bodies;
use php_rest::{Now, Owner};
use php_state::Program;
use php_stepping::Steps;
use php_tally::Run;
use std::alloc::{AllocError, Global};

/// Runs a script of a program with a budget of ticks, and tells what it came to.
pub fn run_script<'a, S: Steps>(
    alloc: Global,
    steps: &S,
    program: &'a Program,
    input: Input<'a>,
    budget: u32,
) -> Result<Run<'a>, AllocError>
    ensures { IfOk result (λ run. IsLinked program.now → ComesTo program.now (input_of input.entry) budget run) }
{
    let script = input.script;
    let bodies = Bodies::new(alloc, program)?;
    let mut machine = begin(alloc, program, input, budget)?;
    let end = machine.advance(alloc, steps, &bodies, Now::Enter(Owner::File(script)))?;
    let Machine { tally, .. } = machine;
    Ok(tally.finish(end))
}
