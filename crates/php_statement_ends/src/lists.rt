// What stands behind a part that ended.

ghost use Rattle.std.specs.Prelude.{◌≡◌, IfOk};
ghost use Rattle.php_meaning.specs.Course.{then_do};
ghost use Rattle.php_meaning.specs.Statements as statements;
ghost use Rattle.php_rest.specs.Laws.{Steps, Writes};
ghost use Rattle.php_rest.specs.Named.{all_named, block_named, cases_named};
ghost use Rattle.php_rest.specs.Rest.{signal_of};
ghost use Rattle.php_rest.specs.Tails.{left_in};

use backward_list::Backward;
use php_place_steps::unset_all;
use php_rest::{Ending, Frame, Now, Tail};
use php_statement_steps::{begin_block, begin_bodies, begin_echo};
use php_tree::expr::Expr;
use php_tree::stmt::{Stmt, SwitchArm};
use php_world::Store;
use std::alloc::{AllocError, Global};

/// The statements of a block behind one that ended.
pub(crate) fn then_block<'a>(
    more: Tail<'a, Stmt>,
    ending: Ending,
    stack: &mut Backward<Frame<'a>>,
) -> Result<Now<'a>, AllocError>
    ensures { IfOk result (Steps stack.old stack.new (λ t w k. then_do (statements.statements (block_named t (left_in more.entry))) k (signal_of ending) w)) }
{
    match ending {
        Ending::Normal => {
            let now = begin_block(more, stack)?;
            Ok(now)
        }
        Ending::Returned(value) => Ok(Now::End(Ending::Returned(value))),
        Ending::Breaks(n) => Ok(Now::End(Ending::Breaks(n))),
        Ending::Continues(n) => Ok(Now::End(Ending::Continues(n))),
    }
}

/// The statements of a file behind one that ended.
pub(crate) fn then_file<'a>(more: Tail<'a, Stmt>, ending: Ending) -> Now<'a>
    ensures { (stack : _) → Steps stack stack (λ t w k. then_do (statements.file_statements (block_named t (left_in more.entry))) k (signal_of ending) w) result }
{
    match ending {
        Ending::Normal => Now::OfFile(more),
        Ending::Returned(value) => Now::End(Ending::Returned(value)),
        Ending::Breaks(n) => Now::End(Ending::Breaks(n)),
        Ending::Continues(n) => Now::End(Ending::Continues(n)),
    }
}

/// What is put out behind what was.
pub(crate) fn then_echo<'a>(
    more: Tail<'a, Expr>,
    ending: Ending,
    stack: &mut Backward<Frame<'a>>,
) -> Result<Now<'a>, AllocError>
    ensures { IfOk result (Steps stack.old stack.new (λ t w k. then_do (statements.echoes (all_named t (left_in more.entry))) k (signal_of ending) w)) }
{
    match ending {
        Ending::Normal => {
            let now = begin_echo(more, stack)?;
            Ok(now)
        }
        Ending::Returned(value) => Ok(Now::End(Ending::Returned(value))),
        Ending::Breaks(n) => Ok(Now::End(Ending::Breaks(n))),
        Ending::Continues(n) => Ok(Now::End(Ending::Continues(n))),
    }
}

/// The arms behind one that ended.
pub(crate) fn then_bodies<'a>(
    more: Tail<'a, SwitchArm>,
    ending: Ending,
    stack: &mut Backward<Frame<'a>>,
) -> Result<Now<'a>, AllocError>
    ensures { IfOk result (Steps stack.old stack.new (λ t w k. then_do (statements.bodies (cases_named t (left_in more.entry))) k (signal_of ending) w)) }
{
    match ending {
        Ending::Normal => {
            let now = begin_bodies(more, stack)?;
            Ok(now)
        }
        Ending::Returned(value) => Ok(Now::End(Ending::Returned(value))),
        Ending::Breaks(n) => Ok(Now::End(Ending::Breaks(n))),
        Ending::Continues(n) => Ok(Now::End(Ending::Continues(n))),
    }
}

/// What is unset behind what was.
pub(crate) fn then_unset<'a>(
    alloc: Global,
    more: Tail<'a, Expr>,
    ending: Ending,
    store: &mut Store,
    stack: &mut Backward<Frame<'a>>,
) -> Result<Now<'a>, AllocError>
    ensures { IfOk result (Writes store.old store.new stack.old stack.new (λ t w k. then_do (statements.all_unset (all_named t (left_in more.entry))) k (signal_of ending) w)) }
{
    match ending {
        Ending::Normal => {
            let now = unset_all(alloc, more, store, stack)?;
            Ok(now)
        }
        Ending::Returned(value) => Ok(Now::End(Ending::Returned(value))),
        Ending::Breaks(n) => Ok(Now::End(Ending::Breaks(n))),
        Ending::Continues(n) => Ok(Now::End(Ending::Continues(n))),
    }
}
