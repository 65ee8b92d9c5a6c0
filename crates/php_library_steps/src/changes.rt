// Calls over lists.

ghost use Rattle.std.specs.Prelude.{◌≡◌, IfOk};
ghost use Rattle.php_world.specs.Naming.{Naming};
ghost use Rattle.php_world.specs.Variables.{value_of};
ghost use Rattle.php_world.specs.View.{vars_of};
ghost use Rattle.php_arguments.specs.Answers.{datas};
ghost use Rattle.php_list_calls.specs.ListCalls.{list_answer};
ghost use Rattle.php_meaning.specs.Refusals as meaning;
ghost use Rattle.php_meaning.specs.Refusals.{answered};
ghost use Rattle.php_meaning.specs.Library.{list_library, reads, value_alone};
ghost use Rattle.php_meaning.specs.Apply as spec;
ghost use Rattle.php_meaning.specs.Apply.{changed, first_or_null, library_done, not_counted};
ghost use Rattle.php_rest.specs.Views.{arguments_named};
ghost use Rattle.php_state.specs.Fits.{Keeps};
ghost use Rattle.php_library_steps.specs.Alone.{RunsAlone};
ghost use Rattle.php_library_steps.specs.Taking.{first_name};

use crate::outcome::call_refused;
use crate::taking::{assign_first, put_back, take_array};
use crate::values::values_of;
use php_arguments::CallFault;
use php_callees::{Passing, handed_over};
use php_list_calls::{ListCall, list_call};
use php_meaning::FatalName;
use php_rest::{Argument, Callee, Now};
use php_state::State;
use php_values::Value;
use std::alloc::{AllocError, Global};

// A call that only reads its arguments.
fn read_list<'a>(
    alloc: Global,
    call: ListCall,
    args: &[Argument],
    state: &State<'a>,
) -> Result<Now<'a>, AllocError>
    ensures { IfOk result (RunsAlone state.now state.now (λ t. library_done (reads (λ ds. value_alone (list_answer call ds))) (arguments_named t args.now))) }
{
    let mut values = values_of(alloc, args, &state.store)?;
    match list_call(alloc, call, values.as_mut_slice()) {
        Ok(value) => Ok(Now::Give(value)),
        Err(fault) => {
            let why = call_refused(fault)?;
            Ok(Now::Fail(why))
        }
    }
}

// The fatal of a call that wants a variable and got none.
fn not_named(alloc: Global, call: ListCall, values: &mut [Value]) -> Result<FatalName, AllocError>
    ensures { IfOk result (λ why. meaning.call_refused (not_counted (list_answer call (datas values.old))) ≡ meaning.fatal why) }
{
    match list_call(alloc, call, values) {
        Ok(_) => Ok(FatalName::Mistyped),
        Err(CallFault::Arity) => Ok(FatalName::Arity),
        Err(CallFault::Memory) => Err(AllocError),
        Err(_) => Ok(FatalName::Mistyped),
    }
}

// A call that may change the array of a variable, whose value stands first among those of the arguments.
fn change_variable<'a>(
    alloc: Global,
    call: ListCall,
    number: u32,
    values: &mut [Value],
    state: &mut State<'a>,
) -> Result<Now<'a>, AllocError>
    requires { (t : Naming) → first_or_null (datas values.old) ≡ value_of (t.name number) (vars_of t state.old.store) }
    ensures law { IfOk result (RunsAlone state.old state.new (λ t. answered meaning.call_refused (changed (t.name number)) (list_answer call (datas values.old)))) }
    ensures keeps { IfOk result (λ _. Keeps state.old state.new) }
{
    let taken = take_array(alloc, number, &mut state.store)?;
    match list_call(alloc, call, values) {
        Ok(value) => {
            assign_first(alloc, number, values, &mut state.store)?;
            Ok(Now::Give(value))
        }
        Err(fault) => {
            let why = call_refused(fault)?;
            put_back(alloc, number, taken, values, &mut state.store)?;
            Ok(Now::Fail(why))
        }
    }
}

// The variable that stands first among some arguments.
fn first_name(args: &[Argument]) -> Option<u32>
    ensures { result ≡ first_name args.now }
{
    match args {
        [] => None,
        [first, ..] => match first {
            Argument::Named(number) => Some(*number),
            Argument::Passed(_) => None,
            Argument::Shares(_) => None,
        },
    }
}

// A call that may change its first argument, where that is a variable.
fn change_first<'a>(
    alloc: Global,
    call: ListCall,
    args: &[Argument],
    state: &mut State<'a>,
) -> Result<Now<'a>, AllocError>
    ensures law { IfOk result (RunsAlone state.old state.new (λ t. spec.change_first (list_answer call) (arguments_named t args.now))) }
    ensures keeps { IfOk result (λ _. Keeps state.old state.new) }
{
    let mut values = values_of(alloc, args, &state.store)?;
    match first_name(args) {
        Some(number) => {
            let now = change_variable(alloc, call, number, values.as_mut_slice(), state)?;
            Ok(now)
        }
        None => {
            let why = not_named(alloc, call, values.as_mut_slice())?;
            Ok(Now::Fail(why))
        }
    }
}

/// A call over a list.
pub(crate) fn apply_list<'a>(
    alloc: Global,
    call: ListCall,
    args: &[Argument],
    state: &mut State<'a>,
) -> Result<Now<'a>, AllocError>
    ensures law { IfOk result (RunsAlone state.old state.new (λ t. library_done (list_library call) (arguments_named t args.now))) }
    ensures keeps { IfOk result (λ _. Keeps state.old state.new) }
{
    match handed_over(Callee::List(call), 0) {
        Passing::ByName => {
            let now = change_first(alloc, call, args, state)?;
            Ok(now)
        }
        _ => {
            let now = read_list(alloc, call, args, state)?;
            Ok(now)
        }
    }
}
