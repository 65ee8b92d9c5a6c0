// Chains of operators of one level.

ghost use Rattle.std.specs.Prelude.{IfOk};
ghost use Rattle.php_values.specs.Data.{data_of};
ghost use Rattle.php_meaning.specs.Course.{on_value};
ghost use Rattle.php_meaning.specs.Operators as meaning;
ghost use Rattle.php_meaning.specs.Expressions as expressions;
ghost use Rattle.php_rest.specs.Laws.{Steps};
ghost use Rattle.php_rest.specs.Named.{links_named};

use crate::operate::{chained, decided};
use backward_list::Backward;
use php_rest::{ExprFrame, Frame, Now, Outcome};
use php_tree::expr::{ChainOp, Expr};
use php_values::Value;
use std::alloc::{AllocError, Global};

/// What stands behind a chain's first operand, once that has a value.
pub(crate) fn go_on<'a>(
    left: Value,
    links: &'a [(ChainOp, Expr)],
    stack: &mut Backward<Frame<'a>>,
) -> Result<Now<'a>, AllocError>
    ensures { IfOk result (Steps stack.old stack.new (λ t. expressions.links (links_named t links.now) (data_of left))) }
{
    match links {
        [] => Ok(Now::Give(left)),
        [link, more @ ..] => {
            if let Some(b) = decided(link.0, &left) {
                stack.push(Frame::OfExpr(ExprFrame::Links(more)))?;
                return Ok(Now::Give(Value::Bool(b)));
            }
            stack.push(Frame::OfExpr(ExprFrame::RightOf(link.0, left, more)))?;
            Ok(Now::Evaluate(&link.1))
        }
    }
}

/// The same behind the right operand of an operator.
pub(crate) fn go_on_right<'a>(
    alloc: Global,
    op: ChainOp,
    left: &Value,
    right: &Value,
    links: &'a [(ChainOp, Expr)],
    stack: &mut Backward<Frame<'a>>,
) -> Result<Now<'a>, AllocError>
    ensures { IfOk result (Steps stack.old stack.new (λ t w k. meaning.chained op (data_of left.now) (data_of right.now) w (on_value (expressions.links (links_named t links.now)) k))) }
{
    match chained(alloc, op, left, right)? {
        Outcome::Gives(value) => {
            let now = go_on(value, links, stack)?;
            Ok(now)
        }
        Outcome::Fails(why) => Ok(Now::Fail(why)),
    }
}
