// Calls that know the run.

ghost use Rattle.std.specs.Prelude.{◌≡◌, [], ◌∷◌, IfOk, MatchOption};
ghost use Rattle.std.specs.Option.{is_some};
ghost use Rattle.std.specs.Str.{str_to_ascii_lowercase};
ghost use Rattle.php_world.specs.Naming.{Naming};
ghost use Rattle.php_callees.specs.Names.{called_in, declared_in};
ghost use Rattle.php_meaning.specs.Apply as spec;
ghost use Rattle.php_meaning.specs.Library.{call_user_func};
ghost use Rattle.php_meaning.specs.Calls.{system};
ghost use Rattle.php_rest.specs.Views.{argument_named, arguments_named, system_of};
ghost use Rattle.php_state.specs.Fits.{Keeps};
ghost use Rattle.php_library_steps.specs.Alone.{RunsAlone};

use crate::constants::{define, defined};
use crate::outcome::{call_refused, give_truth};
use crate::values::value_of;
use php_arguments::text_argument;
use php_callees::is_taken;
use php_meaning::FatalName;
use php_names::LowerName;
use php_rest::{Argument, Now, SystemCall};
use php_state::State;
use php_tables::Functions;
use sqlite_items::Items;
use std::alloc::{AllocError, Global};

// Whether a name calls something, in any case.
fn is_function(alloc: Global, name: &[u8], functions: &Functions<'_>) -> Result<bool, AllocError>
    ensures { IfOk result (λ exists. (t : Naming) → exists ≡ is_some (called_in (str_to_ascii_lowercase name.now) (declared_in t functions.now))) }
{
    let mut lower = LowerName::new(alloc);
    lower.set(name)?;
    Ok(is_taken(functions, lower.as_slice()))
}

// `function_exists`.
fn function_exists<'a>(
    alloc: Global,
    args: &[Argument],
    state: &State<'a>,
) -> Result<Now<'a>, AllocError>
    ensures { IfOk result (RunsAlone state.now state.now (λ t. spec.exists_done (arguments_named t args.now))) }
{
    if args.len() != 1 {
        return Ok(Now::Fail(FatalName::Arity));
    }
    let name = value_of(&args[0], &state.store)?;
    match text_argument(alloc, &name) {
        Ok(text) => {
            let exists = is_function(alloc, text.as_slice(), &state.functions)?;
            Ok(give_truth(exists))
        }
        Err(fault) => {
            let why = call_refused(fault)?;
            Ok(Now::Fail(why))
        }
    }
}

// The first of some arguments, and the others.
fn split_first(args: Items<Argument>) -> Option<(Argument, Items<Argument>)>
    ensures { MatchOption result (args ≡ []) (λ split. args ≡ split.0 ∷ split.1) }
{
    let mut args = args;
    if args.is_empty() {
        return None;
    }
    let first = args.remove(0);
    Some((first, args))
}

// `call_user_func` with a name: what it names is called next, with the arguments behind it.
fn call_by_name<'a>(
    alloc: Global,
    name: &Argument,
    args: Items<Argument>,
    state: &State<'a>,
) -> Result<Now<'a>, AllocError>
    ensures { IfOk result (RunsAlone state.now state.now (λ t. spec.apply (system call_user_func) (argument_named t name.now ∷ arguments_named t args))) }
{
    let name = value_of(name, &state.store)?;
    match text_argument(alloc, &name) {
        Ok(text) => Ok(Now::CallNamed(text, args)),
        Err(fault) => {
            let why = call_refused(fault)?;
            Ok(Now::Fail(why))
        }
    }
}

// `call_user_func`.
fn call_user_func<'a>(
    alloc: Global,
    args: Items<Argument>,
    state: &State<'a>,
) -> Result<Now<'a>, AllocError>
    ensures { IfOk result (RunsAlone state.now state.now (λ t. spec.apply (system call_user_func) (arguments_named t args))) }
{
    match split_first(args) {
        Some((name, behind)) => {
            let now = call_by_name(alloc, &name, behind, state)?;
            Ok(now)
        }
        None => Ok(Now::Fail(FatalName::Arity)),
    }
}

/// A call that knows the run.
pub(crate) fn apply_system<'a>(
    alloc: Global,
    call: SystemCall,
    args: Items<Argument>,
    state: &mut State<'a>,
) -> Result<Now<'a>, AllocError>
    ensures law { IfOk result (RunsAlone state.old state.new (λ t. spec.apply (system (system_of call)) (arguments_named t args))) }
    ensures keeps { IfOk result (λ _. Keeps state.old state.new) }
{
    match call {
        SystemCall::Define => {
            let now = define(alloc, args.as_slice(), state)?;
            Ok(now)
        }
        SystemCall::Defined => {
            let now = defined(alloc, args.as_slice(), state)?;
            Ok(now)
        }
        SystemCall::FunctionExists => {
            let now = function_exists(alloc, args.as_slice(), state)?;
            Ok(now)
        }
        SystemCall::CallUserFunc => {
            let now = call_user_func(alloc, args, state)?;
            Ok(now)
        }
    }
}
