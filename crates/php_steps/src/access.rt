// Indexes and properties behind a value.

ghost use Rattle.std.specs.Prelude.{IfOk};
ghost use Rattle.php_values.specs.Data.{data_of};
ghost use Rattle.php_world.specs.Steps as steps;
ghost use Rattle.php_meaning.specs.Stores.{stepped_in};
ghost use Rattle.php_meaning.specs.Expressions as expressions;
ghost use Rattle.php_rest.specs.Laws.{Steps};
ghost use Rattle.php_rest.specs.Named.{accesses_named};

use backward_list::Backward;
use php_meaning::FatalName;
use php_rest::{ExprFrame, Frame, Now, place_refused};
use php_tree::expr::{Access, Expr};
use php_values::Value;
use php_world::{Reading, Step, read_value};
use std::alloc::{AllocError, Global};

/// What stands behind the head of a post, once that has a value.
pub(crate) fn go_on<'a>(
    how: Reading,
    value: Value,
    accesses: &'a [Access<Expr>],
    stack: &mut Backward<Frame<'a>>,
) -> Result<Now<'a>, AllocError>
    ensures { IfOk result (Steps stack.old stack.new (λ t. expressions.accessed how (accesses_named t accesses.now) (data_of value))) }
{
    match accesses {
        [] => Ok(Now::Give(value)),
        [first, more @ ..] => match first {
            Access::Index(key) => {
                stack.push(Frame::OfExpr(ExprFrame::IndexOf(how, value, more)))?;
                Ok(Now::Evaluate(key))
            }
            Access::Append => {
                stack.push(Frame::OfExpr(ExprFrame::Accessed(how, more)))?;
                Ok(Now::Give(value))
            }
            Access::Property(_) => {
                stack.push(Frame::OfExpr(ExprFrame::Accessed(how, more)))?;
                Ok(Now::Give(Value::Null))
            }
            Access::Method(_, _) => Ok(Now::FailAfterTick(FatalName::Uncaught)),
        },
    }
}

/// What is read at a key, and what stands behind it.
pub(crate) fn index<'a>(
    alloc: Global,
    how: Reading,
    value: &Value,
    key: Value,
    accesses: &'a [Access<Expr>],
    stack: &mut Backward<Frame<'a>>,
) -> Result<Now<'a>, AllocError>
    ensures { IfOk result (Steps stack.old stack.new (λ t. stepped_in how (steps.at (data_of key)) (expressions.accessed how (accesses_named t accesses.now)) (data_of value.now))) }
{
    match read_value(alloc, how, value, &[Step::At(key)]) {
        Ok(found) => {
            let now = go_on(how, found, accesses, stack)?;
            Ok(now)
        }
        Err(fault) => Ok(Now::Fail(place_refused(fault)?)),
    }
}
