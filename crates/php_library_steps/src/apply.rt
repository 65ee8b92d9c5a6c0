// All calls of the library.

ghost use Rattle.std.specs.Prelude.{◌≡◌, true, IfOk};
ghost use Rattle.php_text_calls.specs.TextCalls.{text_answer};
ghost use Rattle.php_meaning.specs.Library.{reads};
ghost use Rattle.php_meaning.specs.Apply as spec;
ghost use Rattle.php_rest.specs.Views.{arguments_named, callee_named};
ghost use Rattle.php_state.specs.Fits.{Keeps};
ghost use Rattle.php_state.specs.Laws.{Runs};
ghost use Rattle.php_library_steps.specs.Alone.{RunsAlone, is_library};

use crate::changes::apply_list;
use crate::outcome::call_refused;
use crate::system::apply_system;
use crate::values::values_of;
use php_meaning::FatalName;
use php_rest::{Argument, Callee, Now};
use php_state::State;
use php_text_calls::{TextCall, text_call};
use sqlite_items::Items;
use std::alloc::{AllocError, Global};

// A call over texts.
fn apply_text<'a>(
    alloc: Global,
    call: TextCall,
    args: &[Argument],
    state: &State<'a>,
) -> Result<Now<'a>, AllocError>
    ensures { IfOk result (RunsAlone state.now state.now (λ t. spec.library_done (reads (text_answer call)) (arguments_named t args.now))) }
{
    let values = values_of(alloc, args, &state.store)?;
    match text_call(alloc, call, values.as_slice()) {
        Ok(value) => Ok(Now::Give(value)),
        Err(fault) => {
            let why = call_refused(fault)?;
            Ok(Now::Fail(why))
        }
    }
}

/// Calls a function of the library with arguments that were evaluated. A variable's array that the call changes is taken
/// out meanwhile, so that it is changed in place where no other value shares it. A function of the program is not called here.
pub fn apply_library<'a>(
    alloc: Global,
    callee: Callee<'a>,
    args: Items<Argument>,
    state: &mut State<'a>,
) -> Result<Now<'a>, AllocError>
    ensures law { IfOk result (λ now. is_library callee.entry ≡ true → (stack : _) → Runs state.old state.new stack stack (λ t. spec.apply (callee_named t callee.entry) (arguments_named t args)) now) }
    ensures keeps { IfOk result (λ _. Keeps state.old state.new) }
{
    match callee {
        Callee::Text(call) => {
            let now = apply_text(alloc, call, args.as_slice(), state)?;
            Ok(now)
        }
        Callee::List(call) => {
            let now = apply_list(alloc, call, args.as_slice(), state)?;
            Ok(now)
        }
        Callee::System(call) => {
            let now = apply_system(alloc, call, args, state)?;
            Ok(now)
        }
        Callee::Program(_) => Ok(Now::Fail(FatalName::Uncaught)),
    }
}
