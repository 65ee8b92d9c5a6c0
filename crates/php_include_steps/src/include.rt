// What is done with the path of an include.

ghost use Rattle.std.specs.Prelude.{◌≡◌, IfOk, Some, slice_get};
ghost use Rattle.std.specs.Option.{option_map};
ghost use Rattle.php_values.specs.Data.{data_of};
ghost use Rattle.php_world.specs.Naming.{Naming};
ghost use Rattle.php_meaning.specs.Folders as folders;
ghost use Rattle.php_meaning.specs.Operators.{as_text};
ghost use Rattle.php_meaning.specs.Stores as stores;
ghost use Rattle.php_rest.specs.Rest.{next_of};
ghost use Rattle.php_state.specs.Fits.{Keeps};
ghost use Rattle.php_state.specs.Laws.{Runs};
ghost use Rattle.php_state.specs.Views.{world_of};

use crate::begin::file_of;
use crate::enter::enter_by;
use backward_list::Backward;
use php_folders::file_named;
use php_meaning::FatalName;
use php_rest::{Frame, Now, text_refused};
use php_state::{Program, State};
use php_tree::expr::IncludeKind;
use php_values::{Value, to_text};
use sqlite_items::Items;
use std::alloc::{AllocError, Global};

// A file that is not there.
fn not_there<'a>(kind: IncludeKind) -> Now<'a>
    ensures { (t : Naming) → next_of t result ≡ stores.not_there kind }
{
    match kind {
        IncludeKind::Include => Now::Give(Value::Bool(false)),
        IncludeKind::IncludeOnce => Now::Give(Value::Bool(false)),
        IncludeKind::Require => Now::Fail(FatalName::Missing),
        IncludeKind::RequireOnce => Now::Fail(FatalName::Missing),
    }
}

// The path of a file of the program, by its number among the paths. A program whose files stand otherwise than its paths is answered
// as a want of memory.
fn path_at<'a>(program: &'a Program, number: usize) -> Result<&'a Items<u8>, AllocError>
    ensures { IfOk result (λ path. slice_get program.now.paths number ≡ Some path.now) }
{
    let Some(file) = program.files.as_slice().get(number) else {
        return Err(AllocError);
    };
    let Some(found) = program.paths.number(file.path.as_slice()) else {
        return Err(AllocError);
    };
    if found == number {
        return Ok(&file.path);
    }
    Err(AllocError)
}

// The path of the file that an include names.
fn file_for<'a>(
    alloc: Global,
    text: &[u8],
    state: &State<'a>,
) -> Result<Option<&'a Items<u8>>, AllocError>
    ensures { IfOk result (λ path. (t : Naming) → option_map (λ p. p.now) path ≡ folders.file_named text.now (world_of t state.now)) }
{
    let program = state.program;
    let from = file_of(state.scene.owner).as_slice();
    let script = state.script.as_slice();
    match file_named(alloc, &program.paths, script, from, text)? {
        Some(number) => {
            let path = path_at(program, number)?;
            Ok(Some(path))
        }
        None => Ok(None),
    }
}

// The file that an include names is entered, if there is one.
fn include_file<'a>(
    alloc: Global,
    kind: IncludeKind,
    text: &[u8],
    state: &mut State<'a>,
    stack: &mut Backward<Frame<'a>>,
) -> Result<Now<'a>, AllocError>
    ensures keeps { IfOk result (λ _. Keeps state.old state.new) }
    ensures law { IfOk result (Runs state.old state.new stack.old stack.new (λ t. stores.include_text kind text.now)) }
{
    match file_for(alloc, text, state)? {
        Some(path) => {
            let now = enter_by(alloc, kind, path, state, stack)?;
            Ok(now)
        }
        None => Ok(not_there(kind)),
    }
}

/// Goes on with the path of an include. Where a file is to be entered, a frame waits for its end, and it is noted as entered. After an
/// error nothing is said of the state and the frames.
pub fn resume_include<'a>(
    alloc: Global,
    kind: IncludeKind,
    value: Value,
    state: &mut State<'a>,
    stack: &mut Backward<Frame<'a>>,
) -> Result<Now<'a>, AllocError>
    ensures keeps { IfOk result (λ _. Keeps state.old state.new) }
    ensures law { IfOk result (Runs state.old state.new stack.old stack.new (λ t. as_text (stores.include_text kind) (data_of value))) }
{
    match to_text(alloc, &value) {
        Ok(text) => {
            let now = include_file(alloc, kind, text.as_slice(), state, stack)?;
            Ok(now)
        }
        Err(fault) => Ok(Now::Fail(text_refused(fault)?)),
    }
}
