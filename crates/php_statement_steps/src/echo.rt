// What is put out, and the arms of `if`.

ghost use Rattle.std.specs.Prelude.{◌≡◌, IfOk};
ghost use Rattle.app_load.specs.Findings.{arm_body};
ghost use Rattle.php_tree.specs.declared.stmt.IfArm.{out-IfArm};
ghost use Rattle.php_values.specs.Data.{data_of};
ghost use Rattle.php_meaning.specs.Course.{hand, Normal};
ghost use Rattle.php_meaning.specs.Operators.{as_text, put_out};
ghost use Rattle.php_meaning.specs.Statements as statements;
ghost use Rattle.php_rest.specs.Laws.{Steps};
ghost use Rattle.php_rest.specs.Named.{all_named, arms_named, block_named};
ghost use Rattle.php_rest.specs.Rest.{next_of};
ghost use Rattle.php_rest.specs.Tails.{left_in};
ghost use Rattle.php_statement_steps.specs.Arms.{arm_test};

use backward_list::Backward;
use order_map::ByteText;
use php_rest::{Ending, Frame, Now, Printed, StmtFrame, Tail, text_refused};
use php_tree::expr::Expr;
use php_tree::stmt::{IfArm, Stmt};
use php_values::{Value, to_text};
use sqlite_items::{Boxed, Items};
use std::alloc::{AllocError, Global};

/// The expressions that are still to be put out.
pub fn begin_echo<'a>(
    asked: Tail<'a, Expr>,
    stack: &mut Backward<Frame<'a>>,
) -> Result<Now<'a>, AllocError>
    ensures { IfOk result (Steps stack.old stack.new (λ t. statements.echoes (all_named t (left_in asked.entry)))) }
{
    let Some((first, more)) = asked.cut() else {
        return Ok(Now::End(Ending::Normal));
    };
    stack.push(Frame::OfStmt(StmtFrame::EchoOf(more)))?;
    Ok(Now::Evaluate(first))
}

/// The text of a value is put out, and then the others.
pub(crate) fn echo_value<'a>(
    alloc: Global,
    value: &Value,
    more: Tail<'a, Expr>,
    stack: &mut Backward<Frame<'a>>,
) -> Result<Now<'a>, AllocError>
    ensures { IfOk result (Steps stack.old stack.new (λ t. as_text (λ text. put_out text (statements.echoes (all_named t (left_in more.entry)))) (data_of value.now))) }
{
    match to_text(alloc, value) {
        Ok(text) => {
            stack.push(Frame::OfStmt(StmtFrame::ThenEcho(more)))?;
            Ok(Now::Print(text, Printed::Nothing))
        }
        Err(fault) => Ok(Now::Fail(text_refused(fault)?)),
    }
}

/// Bytes of the file itself are put out.
pub fn print_inline<'a>(alloc: Global, bytes: &[u8]) -> Result<Now<'a>, AllocError>
    ensures { IfOk result (λ now. (t : _) → next_of t now ≡ put_out bytes.now (hand Normal)) }
{
    let text = ByteText::from_slice(alloc, bytes)?;
    Ok(Now::Print(text, Printed::Nothing))
}

// The test of an arm, and what it guards.
fn guard<'a>(of: &'a IfArm) -> (&'a Boxed<Expr>, &'a Items<Stmt>)
    ensures test { result.0.now ≡ arm_test (out-IfArm of.now) }
    ensures body { result.1.now ≡ arm_body (out-IfArm of.now) }
{
    match of {
        IfArm::Arm(test, body) => (test, body),
    }
}

/// The arms of an `if` that are left.
pub fn begin_arms<'a>(
    arms: Tail<'a, IfArm>,
    others: &'a Items<Stmt>,
    stack: &mut Backward<Frame<'a>>,
) -> Result<Now<'a>, AllocError>
    ensures { IfOk result (Steps stack.old stack.new (λ t. statements.arms (arms_named t (left_in arms.entry)) (statements.statements (block_named t others.now)))) }
{
    let Some((first, more)) = arms.cut() else {
        return Ok(Now::Block(Tail::new(others)));
    };
    let (test, body) = guard(first);
    stack.push(Frame::OfStmt(StmtFrame::Choose(body, more, others)))?;
    Ok(Now::Evaluate(test.get()))
}
