// The body of a loop or a `switch` ended.

ghost use Rattle.std.specs.Prelude.{◌≡◌, IfOk};
ghost use Rattle.php_meaning.specs.Statements as statements;
ghost use Rattle.php_rest.specs.Laws.{Steps};
ghost use Rattle.php_rest.specs.Pairs.{pairs_left};
ghost use Rattle.php_rest.specs.Rest.{each_left, loop_again, loop_named, signal_of};
ghost use Rattle.php_statement_ends.specs.Left.{after_break, after_continue};
ghost use Rattle.php_statement_steps.specs.Standing.{Follows};

use backward_list::Backward;
use php_rest::{Each, Ending, Frame, Loop, Now, Scene, Turns};
use php_statement_steps::again;
use php_world::Store;
use std::alloc::AllocError;

// A loop or a `switch` is left.
fn behind_break(n: u64) -> Ending
    ensures { signal_of result ≡ after_break n }
{
    if n == 0 {
        return Ending::Normal;
    }
    Ending::Breaks(n - 1)
}

// A `switch` is left by `continue`.
fn behind_continue(n: u64) -> Ending
    ensures { signal_of result ≡ after_continue n }
{
    if n == 0 {
        return Ending::Normal;
    }
    Ending::Continues(n - 1)
}

/// The body of a loop ended.
pub(crate) fn body<'a>(
    of: Loop<'a>,
    ending: Ending,
    store: &Store,
    scene: &mut Scene<'a>,
    stack: &mut Backward<Frame<'a>>,
) -> Result<Now<'a>, AllocError>
    ensures { IfOk result (Follows store.now store.now scene.old scene.new stack.old stack.new (λ t w k. statements.looped (loop_again (loop_named t of.entry)) k (signal_of ending) w)) }
{
    match ending {
        Ending::Normal => {
            let now = again(of, store, scene, stack)?;
            Ok(now)
        }
        Ending::Continues(n) => {
            if n == 0 {
                let now = again(of, store, scene, stack)?;
                return Ok(now);
            }
            Ok(Now::End(Ending::Continues(n - 1)))
        }
        Ending::Breaks(n) => Ok(Now::End(behind_break(n))),
        Ending::Returned(value) => Ok(Now::End(Ending::Returned(value))),
    }
}

/// The body of a `foreach` ended.
pub(crate) fn each_body<'a>(of: Each<'a>, turns: Turns, ending: Ending) -> Now<'a>
    ensures { (stack : _) → Steps stack stack (λ t w k. statements.looped (each_left t of.entry (pairs_left turns)) k (signal_of ending) w) result }
{
    match ending {
        Ending::Normal => Now::Each(of, turns),
        Ending::Continues(n) => {
            if n == 0 {
                return Now::Each(of, turns);
            }
            Now::End(Ending::Continues(n - 1))
        }
        Ending::Breaks(n) => Now::End(behind_break(n)),
        Ending::Returned(value) => Now::End(Ending::Returned(value)),
    }
}

/// A `switch` ended.
pub(crate) fn switched<'a>(ending: Ending) -> Now<'a>
    ensures { (stack : _) → Steps stack stack (λ t w k. statements.switched k (signal_of ending) w) result }
{
    match ending {
        Ending::Normal => Now::End(Ending::Normal),
        Ending::Continues(n) => Now::End(behind_continue(n)),
        Ending::Breaks(n) => Now::End(behind_break(n)),
        Ending::Returned(value) => Now::End(Ending::Returned(value)),
    }
}
