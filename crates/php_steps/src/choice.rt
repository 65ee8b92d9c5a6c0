// `? :`, `isset` and the ends by `exit`.

ghost use Rattle.std.specs.Prelude.{◌≡◌, false, IfOk};
ghost use Rattle.php_values.specs.Data.{data_of};
ghost use Rattle.php_meaning.specs.Operators as meaning;
ghost use Rattle.php_meaning.specs.Expressions as expressions;
ghost use Rattle.php_rest.specs.Laws.{Steps};
ghost use Rattle.php_steps.specs.Nodes.{is_node};
ghost use Rattle.php_rest.specs.Rest.{next_of};
ghost use Rattle.php_rest.specs.Named.{all_named, branches_named};

use backward_list::Backward;
use php_rest::{ExprFrame, Frame, Now, Printed};
use php_tree::expr::{Branch, Expr};
use php_values::{Value, truth};
use std::alloc::AllocError;

/// What stands behind the first operand of a choice, once that has a value.
pub(crate) fn go_on<'a>(
    value: Value,
    branches: &'a [Branch<Expr>],
    stack: &mut Backward<Frame<'a>>,
) -> Result<Now<'a>, AllocError>
    ensures { IfOk result (Steps stack.old stack.new (λ t. expressions.branches (branches_named t branches.now) (data_of value))) }
{
    match branches {
        [] => Ok(Now::Give(value)),
        [first, more @ ..] => match first {
            Branch::Full(yes, no) => {
                let holds = truth(&value);
                stack.push(Frame::OfExpr(ExprFrame::Branches(more)))?;
                if holds {
                    Ok(Now::Evaluate(yes))
                } else {
                    Ok(Now::Evaluate(no))
                }
            }
            Branch::Short(no) => {
                let kept = truth(&value);
                stack.push(Frame::OfExpr(ExprFrame::Branches(more)))?;
                if kept {
                    Ok(Now::Give(value))
                } else {
                    Ok(Now::Evaluate(no))
                }
            }
        },
    }
}

pub(crate) fn is_null(value: &Value) -> bool
    ensures { result ≡ meaning.is_null (data_of value.now) }
{
    matches!(value, Value::Null)
}

/// What `isset` asks next.
pub(crate) fn all_set<'a>(
    asked: &'a [Expr],
    stack: &mut Backward<Frame<'a>>,
) -> Result<Now<'a>, AllocError>
    ensures law { IfOk result (Steps stack.old stack.new (λ t. expressions.all_set (all_named t asked.now))) }
    ensures plain { IfOk result (λ now. is_node now ≡ false) }
{
    match asked {
        [] => Ok(Now::Give(Value::Bool(true))),
        [first, more @ ..] => {
            stack.push(Frame::OfExpr(ExprFrame::AllSet(more)))?;
            Ok(Now::Probe(first))
        }
    }
}

/// The end by `exit` with a value, which is printed where it is a text.
pub(crate) fn exit_with<'a>(value: Value) -> Now<'a>
    ensures { (t : _) → next_of t result ≡ expressions.exit_value (data_of value) }
{
    match value {
        Value::Bytes(text) => Now::Print(text, Printed::End),
        _ => Now::Exit,
    }
}
