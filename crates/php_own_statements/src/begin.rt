// How `switch` and `return` begin, after their ticks.

ghost use Rattle.std.specs.Prelude.{◌≡◌, IfOk};
ghost use Rattle.php_tree.specs.ExpressionOf.{expression_or_none};
ghost use Rattle.php_tree.specs.Renamed.{renamed_option};
ghost use Rattle.php_tree.specs.Statements as tree;
ghost use Rattle.php_meaning.specs.Statements as statements;
ghost use Rattle.php_rest.specs.Named.{cases_named, named};
ghost use Rattle.php_statement_steps.specs.Standing.{FollowsTick};

use crate::returns::give_back;
use backward_list::Backward;
use php_rest::{Frame, Now, Scene, StmtFrame};
use php_statement_begin::evaluate_at;
use php_statement_steps::stand_at;
use php_tree::expr::Expr;
use php_tree::stmt::SwitchArm;
use php_world::Store;
use sqlite_items::{Boxed, Items};
use std::alloc::{AllocError, Global};

/// Begins a `switch` on a line.
pub fn begin_switch<'a>(
    e: &'a Boxed<Expr>,
    arms: &'a Items<SwitchArm>,
    line: u32,
    store: &Store,
    scene: &mut Scene<'a>,
    stack: &mut Backward<Frame<'a>>,
) -> Result<Now<'a>, AllocError>
    ensures { IfOk result (FollowsTick store.now store.now scene.old scene.new stack.old stack.new (λ t. statements.statement (tree.switch (named t e.now) (cases_named t arms.now) line))) }
{
    let frame = Frame::OfStmt(StmtFrame::SwitchOf(arms));
    let now = evaluate_at(e, line, frame, store, scene, stack)?;
    Ok(now)
}

/// Begins a `return` on a line.
pub fn begin_return<'a>(
    alloc: Global,
    value: &'a Option<Boxed<Expr>>,
    line: u32,
    store: &Store,
    scene: &mut Scene<'a>,
    stack: &mut Backward<Frame<'a>>,
) -> Result<Now<'a>, AllocError>
    ensures { IfOk result (FollowsTick store.now store.now scene.old scene.new stack.old stack.new (λ t. statements.statement (tree.return (renamed_option t.name (expression_or_none value.now)) line))) }
{
    match value {
        Some(e) => {
            let frame = Frame::OfStmt(StmtFrame::ReturnOf);
            let now = evaluate_at(e, line, frame, store, scene, stack)?;
            Ok(now)
        }
        None => {
            stand_at(scene, line);
            let now = give_back(alloc, None, store, scene)?;
            Ok(now)
        }
    }
}
