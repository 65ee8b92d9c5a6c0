// How a file is entered.

ghost use Rattle.std.specs.Prelude.{◌≡◌, IfOk};
ghost use Rattle.php_meaning.specs.Stores as stores;
ghost use Rattle.php_state.specs.Fits.{Keeps};
ghost use Rattle.php_state.specs.Laws.{Runs};

use backward_list::Backward;
use php_meaning::FatalName;
use php_rest::{CallFrame, Frame, Now, Owner, Scene};
use php_state::State;
use php_tree::expr::IncludeKind;
use php_values::Value;
use sqlite_items::Items;
use std::alloc::{AllocError, Global};

/// How many calls and includes can enclose one another.
const MAX_DEPTH: usize = 1000;

// A file is entered, unless too many calls and includes enclose it.
fn enter_file<'a>(
    alloc: Global,
    path: &'a Items<u8>,
    state: &mut State<'a>,
    stack: &mut Backward<Frame<'a>>,
) -> Result<Now<'a>, AllocError>
    ensures keeps { IfOk result (λ _. Keeps state.old state.new) }
    ensures law { IfOk result (Runs state.old state.new stack.old stack.new (λ t. stores.enter_file path.now)) }
{
    let includer = state.scene;
    if includer.depth >= MAX_DEPTH {
        return Ok(Now::Fail(FatalName::Depth));
    }
    state.entered.push(alloc, path)?;
    stack.push(Frame::OfCall(CallFrame::Includer(includer)))?;
    state.scene = Scene {
        owner: Owner::File(path),
        depth: includer.depth + 1,
        file: includer.file,
        line: includer.line,
    };
    Ok(Now::Enter(Owner::File(path)))
}

// The same of a file that is entered once at most.
fn enter_once<'a>(
    alloc: Global,
    path: &'a Items<u8>,
    state: &mut State<'a>,
    stack: &mut Backward<Frame<'a>>,
) -> Result<Now<'a>, AllocError>
    ensures keeps { IfOk result (λ _. Keeps state.old state.new) }
    ensures law { IfOk result (Runs state.old state.new stack.old stack.new (λ t. stores.enter_once path.now)) }
{
    if state.entered.has(path.as_slice()) {
        return Ok(Now::Give(Value::Bool(true)));
    }
    let now = enter_file(alloc, path, state, stack)?;
    Ok(now)
}

/// A file is entered, by the kind of its include.
pub(crate) fn enter_by<'a>(
    alloc: Global,
    kind: IncludeKind,
    path: &'a Items<u8>,
    state: &mut State<'a>,
    stack: &mut Backward<Frame<'a>>,
) -> Result<Now<'a>, AllocError>
    ensures keeps { IfOk result (λ _. Keeps state.old state.new) }
    ensures law { IfOk result (Runs state.old state.new stack.old stack.new (λ t. stores.enter_by kind path.now)) }
{
    match kind {
        IncludeKind::Include => {
            let now = enter_file(alloc, path, state, stack)?;
            Ok(now)
        }
        IncludeKind::Require => {
            let now = enter_file(alloc, path, state, stack)?;
            Ok(now)
        }
        IncludeKind::IncludeOnce => {
            let now = enter_once(alloc, path, state, stack)?;
            Ok(now)
        }
        IncludeKind::RequireOnce => {
            let now = enter_once(alloc, path, state, stack)?;
            Ok(now)
        }
    }
}
