// What a frame of a statement does with the end of what it waited for.

ghost use Rattle.std.specs.Prelude.{◌≡◌, IfOk};
ghost use Rattle.php_rest.specs.Rest.{after_stmt, signal_of};
ghost use Rattle.php_statement_steps.specs.Standing.{Follows};

use crate::bodies::{body, each_body, switched};
use crate::lists::{then_block, then_bodies, then_echo, then_file, then_unset};
use backward_list::Backward;
use php_rest::{Ending, Frame, Now, Scene, StmtFrame};
use php_world::Store;
use std::alloc::{AllocError, Global};

/// Goes on after the end of what a frame of a statement waited for.
pub fn resume_ending<'a>(
    alloc: Global,
    frame: StmtFrame<'a>,
    ending: Ending,
    store: &mut Store,
    scene: &mut Scene<'a>,
    stack: &mut Backward<Frame<'a>>,
) -> Result<Now<'a>, AllocError>
    ensures { IfOk result (Follows store.old store.new scene.old scene.new stack.old stack.new (λ t w k. after_stmt t frame.entry k (signal_of ending) w)) }
{
    match frame {
        StmtFrame::Then(more) => {
            let now = then_block(more, ending, stack)?;
            Ok(now)
        }
        StmtFrame::ThenOfFile(more) => Ok(then_file(more, ending)),
        StmtFrame::ThenEcho(more) => {
            let now = then_echo(more, ending, stack)?;
            Ok(now)
        }
        StmtFrame::ThenUnset(more) => {
            let now = then_unset(alloc, more, ending, store, stack)?;
            Ok(now)
        }
        StmtFrame::Bodies(more) => {
            let now = then_bodies(more, ending, stack)?;
            Ok(now)
        }
        StmtFrame::Body(of) => {
            let now = body(of, ending, store, scene, stack)?;
            Ok(now)
        }
        StmtFrame::EachBody(of, turns) => Ok(each_body(of, turns, ending)),
        StmtFrame::InSwitch => Ok(switched(ending)),
        StmtFrame::EchoOf(_) => Ok(Now::End(ending)),
        StmtFrame::Discard => Ok(Now::End(ending)),
        StmtFrame::Choose(_, _, _) => Ok(Now::End(ending)),
        StmtFrame::Test(_) => Ok(Now::End(ending)),
        StmtFrame::ForList(_, _) => Ok(Now::End(ending)),
        StmtFrame::ForTest(_, _) => Ok(Now::End(ending)),
        StmtFrame::EachOf(_) => Ok(Now::End(ending)),
        StmtFrame::SwitchOf(_) => Ok(Now::End(ending)),
        StmtFrame::CaseOf(_, _, _, _) => Ok(Now::End(ending)),
        StmtFrame::ReturnOf => Ok(Now::End(ending)),
        StmtFrame::ThrowOf => Ok(Now::End(ending)),
    }
}
