// Turns of loops.

ghost use Rattle.std.specs.Prelude.{◌≡◌, IfOk};
ghost use Rattle.php_values.specs.Data.{Data, data_of};
ghost use Rattle.php_meaning.specs.Course.{Turns};
ghost use Rattle.php_meaning.specs.Statements as statements;
ghost use Rattle.php_rest.specs.Laws.{Steps};
ghost use Rattle.php_rest.specs.Named.{all_named};
ghost use Rattle.php_rest.specs.Rest.{loop_again, loop_named, loop_tested};
ghost use Rattle.php_rest.specs.Tails.{left_in};
ghost use Rattle.php_statement_steps.specs.Standing.{Follows};

use crate::scene::stand_at;
use backward_list::Backward;
use php_rest::{Ending, Frame, Loop, Now, Scene, StmtFrame, Tail};
use php_tree::expr::Expr;
use php_values::{Value, truth};
use php_world::Store;
use std::alloc::AllocError;

/// The expressions of a `for` whose values do not count, and then a turn.
pub fn begin_list<'a>(
    asked: Tail<'a, Expr>,
    of: Loop<'a>,
    stack: &mut Backward<Frame<'a>>,
) -> Result<Now<'a>, AllocError>
    ensures { IfOk result (λ now. (d : Data) → Steps stack.old stack.new (λ t. statements.last_of (all_named t (left_in asked.entry)) d (λ e. Turns (loop_named t of.entry))) now) }
{
    let Some((first, more)) = asked.cut() else {
        return Ok(Now::Turn(of));
    };
    stack.push(Frame::OfStmt(StmtFrame::ForList(more, of)))?;
    Ok(Now::Evaluate(first))
}

/// What a loop does with the value of its test.
pub(crate) fn tested<'a>(
    value: &Value,
    of: Loop<'a>,
    stack: &mut Backward<Frame<'a>>,
) -> Result<Now<'a>, AllocError>
    ensures { IfOk result (Steps stack.old stack.new (λ t. loop_tested (loop_named t of.entry) (data_of value.now))) }
{
    if !truth(value) {
        return Ok(Now::End(Ending::Normal));
    }
    match of {
        Loop::While(_, body, _) => {
            stack.push(Frame::OfStmt(StmtFrame::Body(of)))?;
            Ok(Now::Block(Tail::new(body)))
        }
        Loop::Do(_, _, _) => Ok(Now::Turn(of)),
        Loop::For(_, _, body, _) => {
            stack.push(Frame::OfStmt(StmtFrame::Body(of)))?;
            Ok(Now::Block(Tail::new(body)))
        }
    }
}

/// The expressions of the test of a `for` that are left, the last of which counts. Behind them is the value so far.
pub(crate) fn test<'a>(
    value: &Value,
    asked: Tail<'a, Expr>,
    of: Loop<'a>,
    stack: &mut Backward<Frame<'a>>,
) -> Result<Now<'a>, AllocError>
    ensures { IfOk result (Steps stack.old stack.new (λ t. statements.last_of (all_named t (left_in asked.entry)) (data_of value.now) (loop_tested (loop_named t of.entry)))) }
{
    let Some((first, more)) = asked.cut() else {
        let now = tested(value, of, stack)?;
        return Ok(now);
    };
    stack.push(Frame::OfStmt(StmtFrame::ForTest(more, of)))?;
    Ok(Now::Evaluate(first))
}

/// A turn of a loop, after its tick.
pub fn turn<'a>(
    of: Loop<'a>,
    store: &Store,
    scene: &mut Scene<'a>,
    stack: &mut Backward<Frame<'a>>,
) -> Result<Now<'a>, AllocError>
    ensures { IfOk result (Follows store.now store.now scene.old scene.new stack.old stack.new (λ t. statements.turn (loop_named t of.entry))) }
{
    match of {
        Loop::While(asked, _, line) => {
            stack.push(Frame::OfStmt(StmtFrame::Test(of)))?;
            stand_at(scene, line);
            Ok(Now::Evaluate(asked.get()))
        }
        Loop::Do(body, _, _) => {
            stack.push(Frame::OfStmt(StmtFrame::Body(of)))?;
            Ok(Now::Block(Tail::new(body)))
        }
        Loop::For(asked, _, _, line) => {
            stand_at(scene, line);
            let now = test(&Value::Bool(true), Tail::new(asked), of, stack)?;
            Ok(now)
        }
    }
}

/// What comes after the body of a loop that was not left.
pub fn again<'a>(
    of: Loop<'a>,
    store: &Store,
    scene: &mut Scene<'a>,
    stack: &mut Backward<Frame<'a>>,
) -> Result<Now<'a>, AllocError>
    ensures { IfOk result (Follows store.now store.now scene.old scene.new stack.old stack.new (λ t. loop_again (loop_named t of.entry))) }
{
    match of {
        Loop::While(_, _, _) => Ok(Now::Turn(of)),
        Loop::Do(_, asked, line) => {
            stack.push(Frame::OfStmt(StmtFrame::Test(of)))?;
            stand_at(scene, line);
            Ok(Now::Evaluate(asked.get()))
        }
        Loop::For(_, steps, _, line) => {
            stand_at(scene, line);
            let now = begin_list(Tail::new(steps), of, stack)?;
            Ok(now)
        }
    }
}
