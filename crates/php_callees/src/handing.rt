// How arguments are handed over.

ghost use Rattle.std.specs.Prelude.{◌≡◌, drop, map};
ghost use Rattle.php_list_calls.specs.ListCalls as lists;
ghost use Rattle.php_tree.specs.Renamed.{renamed_parameter};
ghost use Rattle.php_tree.specs.StatementOf.{parameter_of};
ghost use Rattle.php_world.specs.Naming.{Naming};
ghost use Rattle.php_meaning.specs.Calls as calls;
ghost use Rattle.php_meaning.specs.Expressions.{first_passing};
ghost use Rattle.php_rest.specs.Views.{callee_named};
ghost use Rattle.php_rest.specs.declared.call_frame.Callee.TheVariants as callee;
ghost use Rattle.php_callees.specs.Passings.{passing_is};

use php_list_calls::ListCall;
use php_rest::Callee;
use php_tree::decl::Param;

/// How a variable is handed over as an argument.
#[derive(Clone, Copy, Debug, PartialEq, Eq)]
pub enum Passing {
    ByValue,
    /// Its cell gets another name.
    ByCell,
    /// A call of the library may change it.
    ByName,
}

// Whether a call over a list may change its first argument.
fn changes_first(call: ListCall) -> bool
    ensures { result ≡ lists.changes_first call }
{
    match call {
        ListCall::ArrayPush | ListCall::ArrayPop | ListCall::ArrayShift => true,
        ListCall::ArrayUnshift | ListCall::Sort | ListCall::Rsort => true,
        ListCall::Asort | ListCall::Arsort | ListCall::Ksort | ListCall::Krsort => true,
        _ => false,
    }
}

// How the argument of a parameter is handed over; further ones are passed by value.
fn of_parameter(params: &[Param], number: usize) -> Passing
    ensures { (t : Naming) → passing_is result ≡ first_passing (drop number (map calls.passing_of (map (renamed_parameter t.name) (map parameter_of params.now)))) }
{
    if number >= params.len() {
        return Passing::ByValue;
    }
    if params[number].by_reference {
        Passing::ByCell
    } else {
        Passing::ByValue
    }
}

// How an argument of a call over a list is handed over.
fn of_list_call(call: ListCall, number: usize) -> Passing
    ensures { (t : Naming) → passing_is result ≡ first_passing (drop number (calls.passings (callee_named t (callee.List call)))) }
{
    if number == 0 && changes_first(call) {
        Passing::ByName
    } else {
        Passing::ByValue
    }
}

/// How the argument behind so many others is handed over.
pub fn handed_over(f: Callee<'_>, number: usize) -> Passing
    ensures { (t : Naming) → passing_is result ≡ first_passing (drop number (calls.passings (callee_named t f.entry))) }
{
    match f {
        Callee::Program(function) => {
            of_parameter(function.declaration.get().params.as_slice(), number)
        }
        Callee::Text(_) => Passing::ByValue,
        Callee::List(call) => of_list_call(call, number),
        Callee::System(_) => Passing::ByValue,
    }
}
