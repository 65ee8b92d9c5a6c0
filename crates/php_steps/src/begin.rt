// How an expression begins.

ghost use Rattle.std.specs.Prelude.{◌≡◌, IfOk};
ghost use Rattle.php_tree.specs.ExpressionOf.{expression_of};
ghost use Rattle.php_meaning.specs.Expressions as expressions;
ghost use Rattle.php_rest.specs.Laws.{Reads};
ghost use Rattle.php_rest.specs.Named.{named};
ghost use Rattle.php_steps.specs.Nodes.{is_node, has_steps_of_its_own};

use crate::operate::no_elements;
use crate::quote::variable;
use crate::{choice, list, quote};
use backward_list::Backward;
use order_map::ByteText;
use php_meaning::FatalName;
use php_rest::{ExprFrame, Frame, Now};
use php_tree::expr::Expr;
use php_values::Value;
use php_world::{Reading, Store};
use std::alloc::{AllocError, Global};

// How a post is read: as it is asked for where all of it is a place.
fn reading_of(is_place: bool, how: Reading) -> Reading
    ensures { result ≡ expressions.reading_of is_place how }
{
    if is_place { how } else { Reading::Plain }
}

/// Begins an expression. A node with steps of its own is handed back.
#[tactic(auto, using(crate::proofs::Meanings::reads, php_tree::proofs::Expressions::expressions))]
pub fn begin_expr<'a>(
    alloc: Global,
    how: Reading,
    e: &'a Expr,
    store: &Store,
    stack: &mut Backward<Frame<'a>>,
) -> Result<Now<'a>, AllocError>
    ensures law { IfOk result (Reads store.now stack.old stack.new (λ t. expressions.read how (named t e.now))) }
    ensures other { IfOk result (λ now. is_node now ≡ has_steps_of_its_own (expression_of e.now)) }
{
    match e {
        Expr::Int(n, _) => Ok(Now::Give(Value::Int(*n))),
        Expr::Text(text, _) => {
            let text = ByteText::from_slice(alloc, text.as_slice())?;
            Ok(Now::Give(Value::Bytes(text)))
        }
        Expr::Quote(parts, _) => {
            let so_far = ByteText::new(alloc)?;
            let now = quote::go_on(alloc, so_far, parts.as_slice(), store, stack)?;
            Ok(now)
        }
        Expr::Var(number, _) => {
            let value = variable(store, *number)?;
            Ok(Now::Give(value))
        }
        Expr::Array(items, _) => {
            let array = no_elements(alloc)?;
            let now = list::go_on(array, items.as_slice(), stack)?;
            Ok(now)
        }
        Expr::Paren(inner, _) => Ok(Now::Evaluate(inner.get())),
        Expr::Isset(asked, _) => {
            let now = choice::all_set(asked.as_slice(), stack)?;
            Ok(now)
        }
        Expr::Empty(asked, _) => {
            stack.push(Frame::OfExpr(ExprFrame::IsEmpty))?;
            Ok(Now::Probe(asked.get()))
        }
        Expr::Exit(_) => Ok(Now::Exit),
        Expr::ExitWith(value, _) => {
            stack.push(Frame::OfExpr(ExprFrame::ExitWith))?;
            Ok(Now::Evaluate(value.get()))
        }
        Expr::New(_, _, _) => Ok(Now::FailAfterTick(FatalName::Uncaught)),
        Expr::NewVar(_, _, _) => Ok(Now::FailAfterTick(FatalName::Uncaught)),
        Expr::ClassConstant(_, _, _) => Ok(Now::Fail(FatalName::Uncaught)),
        Expr::StaticCall(_, _, _, _) => Ok(Now::FailAfterTick(FatalName::Uncaught)),
        Expr::StaticProperty(_, _, _) => Ok(Now::Fail(FatalName::Uncaught)),
        Expr::ClassText(_, _) => Ok(Now::Fail(FatalName::Uncaught)),
        Expr::Post(head, accesses, _) => {
            let how = reading_of(e.is_place(), how);
            stack.push(Frame::OfExpr(ExprFrame::Accessed(how, accesses.as_slice())))?;
            Ok(Now::Evaluate(head.get()))
        }
        Expr::Chain(first, links, _) => {
            stack.push(Frame::OfExpr(ExprFrame::Links(links.as_slice())))?;
            Ok(Now::Evaluate(first.get()))
        }
        Expr::Print(value, _) => {
            stack.push(Frame::OfExpr(ExprFrame::PrintOf))?;
            Ok(Now::Evaluate(value.get()))
        }
        Expr::Choice(first, branches, _) => {
            stack.push(Frame::OfExpr(ExprFrame::Branches(branches.as_slice())))?;
            Ok(Now::Evaluate(first.get()))
        }
        Expr::Coalesce(first, other, _) => {
            stack.push(Frame::OfExpr(ExprFrame::UnlessNull(other)))?;
            Ok(Now::Probe(first.get()))
        }
        Expr::Compare(left, op, right, _) => {
            stack.push(Frame::OfExpr(ExprFrame::CompareWith(*op, right)))?;
            Ok(Now::Evaluate(left.get()))
        }
        Expr::Unary(op, operand, _) => {
            stack.push(Frame::OfExpr(ExprFrame::Before(*op)))?;
            Ok(Now::Evaluate(operand.get()))
        }
        Expr::InstanceOf(value, _, _) => {
            stack.push(Frame::OfExpr(ExprFrame::InstanceOf))?;
            Ok(Now::Evaluate(value.get()))
        }
        Expr::InstanceOfVar(value, _, _) => {
            stack.push(Frame::OfExpr(ExprFrame::InstanceOf))?;
            Ok(Now::Evaluate(value.get()))
        }
        Expr::Clone(value, _) => {
            stack.push(Frame::OfExpr(ExprFrame::CloneOf))?;
            Ok(Now::Evaluate(value.get()))
        }
        Expr::Constant(_, _) => Ok(Now::Node(how, e)),
        Expr::Call(_, _, _) => Ok(Now::Node(how, e)),
        Expr::CallVar(_, _, _) => Ok(Now::Node(how, e)),
        Expr::Assign(_, _, _, _) => Ok(Now::Node(how, e)),
        Expr::AssignReference(_, _, _) => Ok(Now::Node(how, e)),
        Expr::Step(_, _, _) => Ok(Now::Node(how, e)),
        Expr::Include(_, _, _) => Ok(Now::Node(how, e)),
    }
}
