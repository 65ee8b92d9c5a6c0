// `unset`.

ghost use Rattle.std.specs.Prelude.{◌≡◌, IfOk};
ghost use Rattle.php_world.specs.View.{path_of};
ghost use Rattle.php_meaning.specs.Statements as statements;
ghost use Rattle.php_meaning.specs.Stores as stores;
ghost use Rattle.php_rest.specs.Laws.{Writes};
ghost use Rattle.php_rest.specs.Named.{all_named};
ghost use Rattle.php_rest.specs.Tails.{left_in};

use crate::keys::go_on;
use backward_list::Backward;
use php_meaning::FatalName;
use php_rest::{Ending, Frame, Now, StmtFrame, Tail, Target, place_refused};
use php_tree::expr::Expr;
use php_world::{Step, Store};
use sqlite_items::Items;
use std::alloc::{AllocError, Global};

/// Removes an element, and then what else `unset` names.
pub(crate) fn remove<'a>(
    alloc: Global,
    number: u32,
    path: &[Step],
    more: Tail<'a, Expr>,
    store: &mut Store,
    stack: &mut Backward<Frame<'a>>,
) -> Result<Now<'a>, AllocError>
    ensures { IfOk result (Writes store.old store.new stack.old stack.new (λ t. stores.unset_at (t.name number) (path_of path.now) (statements.all_unset (all_named t (left_in more.entry))))) }
{
    match store.unset(alloc, number as usize, path) {
        Ok(()) => {
            stack.push(Frame::OfStmt(StmtFrame::ThenUnset(more)))?;
            Ok(Now::End(Ending::Normal))
        }
        Err(fault) => Ok(Now::Fail(place_refused(fault)?)),
    }
}

/// What `unset` names, one after another.
pub fn unset_all<'a>(
    alloc: Global,
    places: Tail<'a, Expr>,
    store: &mut Store,
    stack: &mut Backward<Frame<'a>>,
) -> Result<Now<'a>, AllocError>
    ensures { IfOk result (Writes store.old store.new stack.old stack.new (λ t. statements.all_unset (all_named t (left_in places.entry)))) }
{
    let Some((place, more)) = places.cut() else {
        return Ok(Now::End(Ending::Normal));
    };
    match place {
        Expr::Var(number, _) => {
            store.unset_variable(*number as usize)?;
            stack.push(Frame::OfStmt(StmtFrame::ThenUnset(more)))?;
            Ok(Now::End(Ending::Normal))
        }
        Expr::Post(head, accesses, _) => {
            let Expr::Var(number, _) = head.get() else {
                stack.push(Frame::OfStmt(StmtFrame::ThenUnset(more)))?;
                return Ok(Now::End(Ending::Normal));
            };
            let target = Target::Unset(*number, more);
            let now = go_on(
                alloc,
                Items::new(alloc),
                Tail::new(accesses),
                target,
                store,
                stack,
            )?;
            Ok(now)
        }
        Expr::StaticProperty(_, _, _) => Ok(Now::Fail(FatalName::Uncaught)),
        _ => {
            stack.push(Frame::OfStmt(StmtFrame::ThenUnset(more)))?;
            Ok(Now::End(Ending::Normal))
        }
    }
}
