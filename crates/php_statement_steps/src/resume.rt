// What a frame of a statement does with a value.

ghost use Rattle.std.specs.Prelude.{◌≡◌, IfOk};
ghost use Rattle.php_values.specs.Data.{data_of};
ghost use Rattle.php_meaning.specs.Course.{Gives};
ghost use Rattle.php_rest.specs.Laws.{Steps};
ghost use Rattle.php_rest.specs.Rest.{after_stmt};

use crate::echo::{begin_arms, echo_value};
use crate::foreach::each_of;
use crate::looping::{begin_list, test, tested};
use backward_list::Backward;
use php_meaning::FatalName;
use php_rest::{Ending, Frame, Now, StmtFrame, Tail};
use php_values::{Value, truth};
use std::alloc::{AllocError, Global};

/// Goes on with a value that a frame of a statement waited for. What is returned, and the
/// values of a `switch` and its arms, are handed back with their frames.
pub fn resume_stmt<'a>(
    alloc: Global,
    frame: StmtFrame<'a>,
    value: Value,
    stack: &mut Backward<Frame<'a>>,
) -> Result<Now<'a>, AllocError>
    ensures { IfOk result (Steps stack.old stack.new (λ t w k. after_stmt t frame.entry k (Gives (data_of value)) w)) }
{
    match frame {
        StmtFrame::EchoOf(more) => {
            let now = echo_value(alloc, &value, more, stack)?;
            Ok(now)
        }
        StmtFrame::Discard => Ok(Now::End(Ending::Normal)),
        StmtFrame::Choose(body, more, others) => {
            if truth(&value) {
                return Ok(Now::Block(Tail::new(body)));
            }
            let now = begin_arms(more, others, stack)?;
            Ok(now)
        }
        StmtFrame::Test(of) => {
            let now = tested(&value, of, stack)?;
            Ok(now)
        }
        StmtFrame::ForList(more, of) => {
            let now = begin_list(more, of, stack)?;
            Ok(now)
        }
        StmtFrame::ForTest(more, of) => {
            let now = test(&value, more, of, stack)?;
            Ok(now)
        }
        StmtFrame::EachOf(of) => Ok(each_of(of, value)),
        StmtFrame::SwitchOf(all) => {
            stack.push(Frame::OfStmt(StmtFrame::SwitchOf(all)))?;
            Ok(Now::Give(value))
        }
        StmtFrame::CaseOf(compared, body, more, all) => {
            stack.push(Frame::OfStmt(StmtFrame::CaseOf(compared, body, more, all)))?;
            Ok(Now::Give(value))
        }
        StmtFrame::ReturnOf => {
            stack.push(Frame::OfStmt(StmtFrame::ReturnOf))?;
            Ok(Now::Give(value))
        }
        StmtFrame::ThrowOf => Ok(Now::Fail(FatalName::Uncaught)),
        StmtFrame::Then(_) => Ok(Now::Give(value)),
        StmtFrame::ThenOfFile(_) => Ok(Now::Give(value)),
        StmtFrame::ThenEcho(_) => Ok(Now::Give(value)),
        StmtFrame::ThenUnset(_) => Ok(Now::Give(value)),
        StmtFrame::Body(_) => Ok(Now::Give(value)),
        StmtFrame::EachBody(_, _) => Ok(Now::Give(value)),
        StmtFrame::Bodies(_) => Ok(Now::Give(value)),
        StmtFrame::InSwitch => Ok(Now::Give(value)),
    }
}
