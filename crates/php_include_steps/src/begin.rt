// How an include begins, and constants by name.

ghost use Rattle.std.specs.Prelude.{◌≡◌, ℕ, IfOk};
ghost use Rattle.php_tree.specs.Expressions as tree;
ghost use Rattle.php_world.specs.Naming.{Naming};
ghost use Rattle.php_world.specs.declared.reading.Reading.{Reading};
ghost use Rattle.php_meaning.specs.Constants as constants;
ghost use Rattle.php_meaning.specs.Course.{Then, Ticks};
ghost use Rattle.php_meaning.specs.Expressions.{read};
ghost use Rattle.php_meaning.specs.World.{World, path_of};
ghost use Rattle.php_rest.specs.Named.{named};
ghost use Rattle.php_rest.specs.Rest.{next_of, rest};
ghost use Rattle.php_rest.specs.Views.{entry_of};
ghost use Rattle.php_state.specs.Laws.{Runs};

use backward_list::Backward;
use php_constants::constant_value;
use php_meaning::FatalName;
use php_rest::{CallFrame, Frame, Now, Owner};
use php_state::State;
use php_tree::expr::{Expr, IncludeKind};
use php_tree::name::ConstName;
use sqlite_items::Items;
use std::alloc::{AllocError, Global};

/// The path of the file whose code runs.
pub(crate) fn file_of<'a>(owner: Owner<'a>) -> &'a Items<u8>
    ensures { result.now ≡ path_of (entry_of owner.entry) }
{
    match owner {
        Owner::File(path) => path,
        Owner::Function(function) => function.path,
    }
}

/// Begins an include, after its tick, by its path, on whatever line it stands.
pub fn begin_include<'a>(
    kind: IncludeKind,
    path: &'a Expr,
    stack: &mut Backward<Frame<'a>>,
) -> Result<Now<'a>, AllocError>
    ensures { IfOk result (λ now. (how : Reading) (line : ℕ) (t : Naming) (w : World) (k : Then) →
        Ticks w (next_of t now w (rest t stack.new k)) ≡ read how (tree.included kind (named t path.now) line) w (rest t stack.old k)) }
{
    stack.push(Frame::OfCall(CallFrame::IncludeOf(kind)))?;
    Ok(Now::Evaluate(path))
}

/// The value of a constant that stands on a line.
pub fn begin_constant<'a>(
    alloc: Global,
    name: &ConstName,
    line: u32,
    state: &State<'a>,
) -> Result<Now<'a>, AllocError>
    ensures { IfOk result (λ now. (stack : _) → Runs state.now state.now stack stack (λ t. constants.constant_named name.now.text line) now) }
{
    let path = file_of(state.scene.owner).as_slice();
    match constant_value(alloc, &state.constants, path, line, name.text.as_slice())? {
        Some(value) => Ok(Now::Give(value)),
        None => Ok(Now::Fail(FatalName::Uncaught)),
    }
}
