// How a statement begins.

ghost use Rattle.std.specs.Prelude.{◌≡◌, IfOk};
ghost use Rattle.php_tree.specs.StatementOf.{statement_of};
ghost use Rattle.php_meaning.specs.Statements as statements;
ghost use Rattle.php_rest.specs.Named.{stmt_named};
ghost use Rattle.php_rest.specs.Laws.{Steps};
ghost use Rattle.php_statement_steps.specs.Kinds as kinds;
ghost use Rattle.php_statement_steps.specs.declared.kind.StmtKind.TheVariants.{Plain};
ghost use Rattle.php_statement_steps.specs.Standing.{FollowsTick};

use crate::leave::around;
use crate::parts::{
    choose_at, echo_at, evaluate_at, for_at, globals_at, loop_at, nothing_at, print_at, try_at,
    unset_at,
};
use backward_list::Backward;
use php_rest::{Each, Ending, Frame, Loop, Now, Scene, StmtFrame, Tail};
use php_tree::stmt::Stmt;
use php_world::Store;
use std::alloc::{AllocError, Global};

/// Begins a statement before which no tick stands. Any other is handed back.
pub fn begin_quiet<'a>(s: &'a Stmt) -> Now<'a>
    ensures { (stack : _) → Steps stack stack (λ t. statements.statement (stmt_named t s.now)) result }
{
    match s {
        Stmt::Empty(_) => Now::End(Ending::Normal),
        Stmt::Block(body, _) => Now::Block(Tail::new(body)),
        Stmt::Removed(_, _, _, _) => Now::End(Ending::Normal),
        _ => Now::Run(s),
    }
}

/// Begins a statement after its tick.
pub fn begin_stmt<'a>(
    alloc: Global,
    s: &'a Stmt,
    store: &mut Store,
    scene: &mut Scene<'a>,
    stack: &mut Backward<Frame<'a>>,
) -> Result<Now<'a>, AllocError>
    requires { kinds.kind_of (statement_of s.now) ≡ Plain }
    ensures { IfOk result (FollowsTick store.old store.new scene.old scene.new stack.old stack.new (λ t. statements.statement (stmt_named t s.now))) }
{
    match s {
        Stmt::Inline(bytes, line) => {
            let now = print_at(alloc, bytes, *line, store, scene)?;
            Ok(now)
        }
        Stmt::Echo(asked, line) => {
            let now = echo_at(asked, *line, store, scene, stack)?;
            Ok(now)
        }
        Stmt::Expr(e, line) => {
            let frame = Frame::OfStmt(StmtFrame::Discard);
            let now = evaluate_at(e, *line, frame, store, scene, stack)?;
            Ok(now)
        }
        Stmt::If(arms, others, line) => {
            let now = choose_at(arms, others, *line, store, scene, stack)?;
            Ok(now)
        }
        Stmt::While(test, body, line) => {
            Ok(loop_at(Loop::While(test, body, *line), *line, store, scene))
        }
        Stmt::Do(body, test, line) => {
            Ok(loop_at(Loop::Do(body, test, *line), *line, store, scene))
        }
        Stmt::For(first, tests, steps, body, line) => {
            let of = Loop::For(tests, steps, body, *line);
            let now = for_at(first, of, *line, store, scene, stack)?;
            Ok(now)
        }
        Stmt::Foreach(e, key, element, body, line) => {
            let of = Each {
                key: *key,
                element: *element,
                body,
            };
            let frame = Frame::OfStmt(StmtFrame::EachOf(of));
            let now = evaluate_at(e, *line, frame, store, scene, stack)?;
            Ok(now)
        }
        Stmt::Break(number, _) => Ok(Now::End(Ending::Breaks(around(*number)))),
        Stmt::Continue(number, _) => Ok(Now::End(Ending::Continues(around(*number)))),
        Stmt::Global(numbers, line) => {
            let now = globals_at(numbers, *line, store, scene)?;
            Ok(now)
        }
        Stmt::Unset(places, line) => {
            let now = unset_at(alloc, places, *line, store, scene, stack)?;
            Ok(now)
        }
        Stmt::Throw(e, line) => {
            let frame = Frame::OfStmt(StmtFrame::ThrowOf);
            let now = evaluate_at(e, *line, frame, store, scene, stack)?;
            Ok(now)
        }
        Stmt::Try(body, _, line) => Ok(try_at(body, *line, store, scene)),
        Stmt::Class(_, line) => Ok(nothing_at(*line, store, scene)),
        _ => Ok(Now::End(Ending::Normal)),
    }
}
