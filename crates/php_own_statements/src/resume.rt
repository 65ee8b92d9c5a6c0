// What a frame of a `switch` or a `return` does with a value.

ghost use Rattle.std.specs.Prelude.{◌≡◌, IfOk};
ghost use Rattle.php_values.specs.Data.{data_of};
ghost use Rattle.php_meaning.specs.Course.{Gives};
ghost use Rattle.php_rest.specs.Rest.{after_stmt};
ghost use Rattle.php_statement_steps.specs.Standing.{Follows};

use crate::returns::give_back;
use crate::switch::{begin_cases, compared};
use backward_list::Backward;
use php_rest::{Frame, Now, Scene, StmtFrame, Tail};
use php_statement_steps::resume_stmt;
use php_values::Value;
use php_world::Store;
use std::alloc::{AllocError, Global};

/// Goes on with a value that a frame of a statement waited for.
pub fn resume_value<'a>(
    alloc: Global,
    frame: StmtFrame<'a>,
    value: Value,
    store: &Store,
    scene: &Scene<'a>,
    stack: &mut Backward<Frame<'a>>,
) -> Result<Now<'a>, AllocError>
    ensures { IfOk result (Follows store.now store.now scene.now scene.now stack.old stack.new (λ t w k. after_stmt t frame.entry k (Gives (data_of value)) w)) }
{
    match frame {
        StmtFrame::SwitchOf(all) => {
            stack.push(Frame::OfStmt(StmtFrame::InSwitch))?;
            let now = begin_cases(value, Tail::new(all), all, stack)?;
            Ok(now)
        }
        StmtFrame::CaseOf(switched, body, more, all) => {
            let now = compared(alloc, switched, &value, body, more, all, stack)?;
            Ok(now)
        }
        StmtFrame::ReturnOf => {
            let now = give_back(alloc, Some(value), store, scene)?;
            Ok(now)
        }
        other => {
            let now = resume_stmt(alloc, other, value, stack)?;
            Ok(now)
        }
    }
}
