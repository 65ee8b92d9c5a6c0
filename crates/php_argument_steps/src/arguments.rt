// The arguments of a call.

ghost use Rattle.std.specs.Prelude.{◌≡◌, IfOk, OnOk};
ghost use Rattle.php_tree.specs.ExpressionOf.{expression_of};
ghost use Rattle.php_values.specs.Data.{data_of};
ghost use Rattle.php_meaning.specs.Course.{Gives};
ghost use Rattle.php_rest.specs.Rest.{after_call};
ghost use Rattle.php_rest.specs.Tails.{left_in};
ghost use Rattle.php_rest.specs.Views.{arguments_named, callee_named};
ghost use Rattle.php_rest.specs.declared.call_frame.CallFrame.TheVariants.{ArgumentOf};
ghost use Rattle.php_state.specs.Fits.{Keeps};
ghost use Rattle.php_argument_steps.specs.Reached.{Reaches, arguments_left};
ghost use Rattle.php_argument_steps.specs.Variables.{var_of};

use crate::handed::handed;
use crate::reached::Reached;
use backward_list::Backward;
use php_rest::{Argument, CallFrame, Callee, Frame, Now, Tail};
use php_state::State;
use php_tree::expr::Expr;
use php_values::Value;
use sqlite_items::Items;
use std::alloc::AllocError;

// The number of the variable that an expression is.
#[tactic(auto, using(php_tree::proofs::Expressions::expressions))]
fn variable_of(e: &Expr) -> Option<u32>
    ensures { result ≡ var_of (expression_of e.now) }
{
    match e {
        Expr::Var(number, _) => Some(*number),
        _ => None,
    }
}

/// The arguments that are left. A variable is handed over at once, and anything else evaluated.
pub(crate) fn go_on<'a>(
    callee: Callee<'a>,
    so_far: Items<Argument>,
    more: Tail<'a, Expr>,
    state: &mut State<'a>,
    stack: &mut Backward<Frame<'a>>,
) -> Result<Reached<'a>, AllocError>
    ensures law { IfOk result (Reaches state.old state.new stack.old stack.new (λ t. arguments_left t (callee_named t callee.entry) (arguments_named t so_far) (left_in more.entry))) }
    ensures keeps { OnOk result (Keeps state.old state.new) }
{
    let mut so_far = so_far;
    let mut left = more;
    'all: while let Some((first, behind)) = left.cut() {
        match variable_of(first) {
            Some(number) => {
                let argument = handed(callee, so_far.len(), number, &mut state.store)?;
                so_far.push(argument)?;
                left = behind;
            }
            None => {
                stack.push(Frame::OfCall(CallFrame::ArgumentOf(callee, so_far, behind)))?;
                return Ok(Reached::Next(Now::Evaluate(first)));
            }
        }
    }
    Ok(Reached::Ready(callee, so_far))
}

/// Goes on with the value of an argument that a call waited for.
pub fn resume_argument<'a>(
    callee: Callee<'a>,
    so_far: Items<Argument>,
    more: Tail<'a, Expr>,
    value: Value,
    state: &mut State<'a>,
    stack: &mut Backward<Frame<'a>>,
) -> Result<Reached<'a>, AllocError>
    ensures law { IfOk result (Reaches state.old state.new stack.old stack.new (λ t w k. after_call t (ArgumentOf callee.entry so_far more.entry) k (Gives (data_of value)) w)) }
    ensures keeps { OnOk result (Keeps state.old state.new) }
{
    let mut so_far = so_far;
    so_far.push(Argument::Passed(value))?;
    let reached = go_on(callee, so_far, more, state, stack)?;
    Ok(reached)
}
