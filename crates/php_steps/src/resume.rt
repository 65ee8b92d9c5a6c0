// What a frame of an expression does with a value.

ghost use Rattle.std.specs.Prelude.{◌≡◌, pos, IfOk};
ghost use Rattle.php_values.specs.Data.{int, data_of};
ghost use Rattle.php_meaning.specs.Course as meaning;
ghost use Rattle.php_meaning.specs.Course.{Gives};
ghost use Rattle.php_meaning.specs.Operators.{as_text, put_out};
ghost use Rattle.php_rest.specs.Outcomes.{done_by};
ghost use Rattle.php_rest.specs.Laws.{Reads};
ghost use Rattle.php_rest.specs.Rest.{after_expr, next_of};

use crate::operate::{before, compared};
use crate::{access, chain, choice, list, quote};
use backward_list::Backward;
use php_meaning::FatalName;
use php_rest::{ExprFrame, Frame, Now, Outcome, Printed, text_refused};
use php_values::{Value, to_text, truth};
use php_world::Store;
use std::alloc::{AllocError, Global};

/// What an operation gave comes next.
pub fn give<'a>(outcome: Outcome) -> Now<'a>
    ensures { (t : _) → next_of t result ≡ done_by outcome }
{
    match outcome {
        Outcome::Gives(value) => Now::Give(value),
        Outcome::Fails(why) => Now::Fail(why),
    }
}

// The text of what `print` was given is put out.
fn print<'a>(alloc: Global, value: &Value) -> Result<Now<'a>, AllocError>
    ensures { IfOk result (λ now. (t : _) → next_of t now ≡ as_text (λ text. put_out text (meaning.give (int (pos 1)))) (data_of value.now)) }
{
    match to_text(alloc, value) {
        Ok(text) => Ok(Now::Print(text, Printed::One)),
        Err(fault) => Ok(Now::Fail(text_refused(fault)?)),
    }
}

/// Goes on with a value that a frame of an expression waited for.
pub fn resume_expr<'a>(
    alloc: Global,
    frame: ExprFrame<'a>,
    value: Value,
    store: &Store,
    stack: &mut Backward<Frame<'a>>,
) -> Result<Now<'a>, AllocError>
    ensures { IfOk result (Reads store.now stack.old stack.new (λ t w k. after_expr t frame.entry k (Gives (data_of value)) w)) }
{
    match frame {
        ExprFrame::Links(more) => {
            let now = chain::go_on(value, more, stack)?;
            Ok(now)
        }
        ExprFrame::RightOf(op, left, more) => {
            let now = chain::go_on_right(alloc, op, &left, &value, more, stack)?;
            Ok(now)
        }
        ExprFrame::CompareWith(op, right) => {
            stack.push(Frame::OfExpr(ExprFrame::CompareRight(op, value)))?;
            Ok(Now::Evaluate(right.get()))
        }
        ExprFrame::CompareRight(op, left) => Ok(give(compared(alloc, op, &left, &value)?)),
        ExprFrame::Before(op) => Ok(give(before(alloc, op, value)?)),
        ExprFrame::Branches(more) => {
            let now = choice::go_on(value, more, stack)?;
            Ok(now)
        }
        ExprFrame::UnlessNull(other) => {
            if choice::is_null(&value) {
                Ok(Now::Evaluate(other.get()))
            } else {
                Ok(Now::Give(value))
            }
        }
        ExprFrame::IsEmpty => Ok(Now::Give(Value::Bool(!truth(&value)))),
        ExprFrame::AllSet(more) => {
            if choice::is_null(&value) {
                Ok(Now::Give(Value::Bool(false)))
            } else {
                let now = choice::all_set(more, stack)?;
                Ok(now)
            }
        }
        ExprFrame::ExitWith => Ok(choice::exit_with(value)),
        ExprFrame::PrintOf => {
            let now = print(alloc, &value)?;
            Ok(now)
        }
        ExprFrame::InstanceOf => Ok(Now::Give(Value::Bool(false))),
        ExprFrame::CloneOf => Ok(Now::Fail(FatalName::Uncaught)),
        ExprFrame::Quoted(so_far, more) => {
            let now = quote::with_text(alloc, so_far, &value, more, store, stack)?;
            Ok(now)
        }
        ExprFrame::ItemOf(array, more) => {
            let now = list::with_value(alloc, array, value, more, stack)?;
            Ok(now)
        }
        ExprFrame::KeyOf(array, item, more) => {
            stack.push(Frame::OfExpr(ExprFrame::PairOf(array, value, more)))?;
            Ok(Now::Evaluate(item))
        }
        ExprFrame::PairOf(array, key, more) => {
            let now = list::with_pair(alloc, array, key, value, more, stack)?;
            Ok(now)
        }
        ExprFrame::Accessed(how, more) => {
            let now = access::go_on(how, value, more, stack)?;
            Ok(now)
        }
        ExprFrame::IndexOf(how, indexed, more) => {
            let now = access::index(alloc, how, &indexed, value, more, stack)?;
            Ok(now)
        }
    }
}
