// What a name calls.

ghost use Rattle.std.specs.Prelude.{◌≡◌, None, false};
ghost use Rattle.std.specs.Option.{option_map, is_some};
ghost use Rattle.php_world.specs.Naming.{Naming};
ghost use Rattle.php_library.specs.Callees as library;
ghost use Rattle.php_meaning.specs.Calls as calls;
ghost use Rattle.php_rest.specs.Views.{callee_named};
ghost use Rattle.php_tables.specs.Functions.{first_named, functions_of};
ghost use Rattle.php_rest.specs.declared.call_frame.Callee.TheVariants as callee;
ghost use Rattle.php_callees.specs.Names.{called_in, declared_in};

use php_library::{LibraryCall, SystemCall, library_named};
use php_rest::Callee;
use php_tables::Functions;

// A call that knows the run, as what is called.
fn system(call: SystemCall) -> php_rest::SystemCall
    ensures { (t : Naming) → callee_named t (callee.System result) ≡ calls.system (library.system_of call) }
{
    match call {
        SystemCall::Define => php_rest::SystemCall::Define,
        SystemCall::Defined => php_rest::SystemCall::Defined,
        SystemCall::FunctionExists => php_rest::SystemCall::FunctionExists,
        SystemCall::CallUserFunc => php_rest::SystemCall::CallUserFunc,
    }
}

// A call of the library, as what is called.
fn library<'a>(call: LibraryCall) -> Callee<'a>
    ensures { (t : Naming) → callee_named t result ≡ library.callee_of call }
{
    match call {
        LibraryCall::Text(call) => Callee::Text(call),
        LibraryCall::List(call) => Callee::List(call),
        LibraryCall::System(call) => Callee::System(system(call)),
    }
}

// What a name in lower case calls, where no function of the program has it.
fn library_callee<'a>(name: &[u8]) -> Option<Callee<'a>>
    ensures { (t : Naming) → option_map (callee_named t) result ≡ calls.library_callee name.now }
{
    match library_named(name) {
        Some(call) => Some(library(call)),
        None => None,
    }
}

/// What a name in lower case calls: a function that was declared, or a call of the library.
pub fn callee_of<'a>(functions: &Functions<'a>, name: &[u8]) -> Option<Callee<'a>>
    ensures callee { (t : Naming) → option_map (callee_named t) result ≡ called_in name.now (declared_in t functions.now) }
    ensures free { result ≡ None → first_named name.now (functions_of functions.now) ≡ None }
{
    if let Some(function) = functions.get(name) {
        return Some(Callee::Program(function));
    }
    library_callee(name)
}

/// Whether a name in lower case calls something, so that no function can be declared under it.
pub fn is_taken(functions: &Functions<'_>, name: &[u8]) -> bool
    ensures taken { (t : Naming) → result ≡ is_some (called_in name.now (declared_in t functions.now)) }
    ensures free { result ≡ false → first_named name.now (functions_of functions.now) ≡ None }
{
    callee_of(functions, name).is_some()
}
