// Constants by name: `define` and `defined`.

ghost use Rattle.std.specs.Prelude.{◌≡◌, None, false, IfOk};
ghost use Rattle.std.specs.Option.{is_some};
ghost use Rattle.php_names.specs.Tables.{found};
ghost use Rattle.php_world.specs.Naming.{Naming};
ghost use Rattle.php_values.specs.Data.{data_of};
ghost use Rattle.php_meaning.specs.World.{path_of};
ghost use Rattle.php_meaning.specs.Constants as meaning;
ghost use Rattle.php_meaning.specs.Apply as spec;
ghost use Rattle.php_rest.specs.Views.{arguments_named, entry_of};
ghost use Rattle.php_state.specs.Views.{world_of};
ghost use Rattle.php_state.specs.Fits.{Keeps};
ghost use Rattle.php_library_steps.specs.Alone.{RunsAlone};

use crate::outcome::{call_refused, give_truth};
use crate::values::value_of;
use php_arguments::text_argument;
use php_constants::constant_value;
use php_meaning::FatalName;
use php_rest::{Argument, Now, Owner};
use php_state::State;
use php_values::Value;
use std::alloc::{AllocError, Global};

// The path of the file whose code runs.
fn path_of<'a>(owner: Owner<'a>) -> &'a [u8]
    ensures { result.now ≡ path_of (entry_of owner.entry) }
{
    match owner {
        Owner::File(path) => path.as_slice(),
        Owner::Function(function) => function.path.as_slice(),
    }
}

// Whether a name has a value as a constant. Where it has none, the run made no constant of it.
fn is_known(alloc: Global, name: &[u8], state: &State<'_>) -> Result<bool, AllocError>
    ensures known { IfOk result (λ known. (t : Naming) → known ≡ is_some (meaning.constant_value name.now 0 (world_of t state.now))) }
    ensures free { IfOk result (λ known. known ≡ false → found name.now state.now.constants ≡ None) }
{
    let path = path_of(state.scene.owner);
    let value = constant_value(alloc, &state.constants, path, 0, name)?;
    Ok(value.is_some())
}

// Makes a constant of a name, unless it has a value.
fn add_constant<'a>(
    alloc: Global,
    name: &[u8],
    value: Value,
    state: &mut State<'a>,
) -> Result<Now<'a>, AllocError>
    ensures law { IfOk result (RunsAlone state.old state.new (λ t w k. spec.define_if name.now (data_of value) (meaning.constant_value name.now 0 w) w k)) }
    ensures keeps { IfOk result (λ _. Keeps state.old state.new) }
{
    if is_known(alloc, name, state)? {
        return Ok(give_truth(false));
    }
    state.constants.add(alloc, name, value)?;
    Ok(give_truth(true))
}

/// `define`.
pub(crate) fn define<'a>(
    alloc: Global,
    args: &[Argument],
    state: &mut State<'a>,
) -> Result<Now<'a>, AllocError>
    ensures law { IfOk result (RunsAlone state.old state.new (λ t. spec.define_done (arguments_named t args.now))) }
    ensures keeps { IfOk result (λ _. Keeps state.old state.new) }
{
    if args.len() != 2 {
        return Ok(Now::Fail(FatalName::Arity));
    }
    let name = value_of(&args[0], &state.store)?;
    let value = value_of(&args[1], &state.store)?;
    match text_argument(alloc, &name) {
        Ok(text) => {
            let now = add_constant(alloc, text.as_slice(), value, state)?;
            Ok(now)
        }
        Err(fault) => {
            let why = call_refused(fault)?;
            Ok(Now::Fail(why))
        }
    }
}

/// `defined`.
pub(crate) fn defined<'a>(
    alloc: Global,
    args: &[Argument],
    state: &State<'a>,
) -> Result<Now<'a>, AllocError>
    ensures { IfOk result (RunsAlone state.now state.now (λ t. spec.defined_done (arguments_named t args.now))) }
{
    if args.len() != 1 {
        return Ok(Now::Fail(FatalName::Arity));
    }
    let name = value_of(&args[0], &state.store)?;
    match text_argument(alloc, &name) {
        Ok(text) => {
            let known = is_known(alloc, text.as_slice(), state)?;
            Ok(give_truth(known))
        }
        Err(fault) => {
            let why = call_refused(fault)?;
            Ok(Now::Fail(why))
        }
    }
}
