// The library's calls by their names.

ghost use Rattle.std.specs.Prelude.{◌≡◌};
ghost use Rattle.std.specs.Option.{option_map};
ghost use Rattle.php_meaning.specs.Calls.{library_callee};
ghost use Rattle.php_meaning.specs.Library.{system_call};
ghost use Rattle.php_library.specs.Callees.{callee_of, system_of};

use crate::call::{LibraryCall, SystemCall};
use php_list_calls::list_call_named;
use php_text_calls::text_call_named;
use std::str::from_utf8;

// The call that knows the run of a name in lower case.
fn system_named(name: &str) -> Option<SystemCall>
    ensures { option_map system_of result ≡ system_call name.now }
{
    match name {
        "define" => Some(SystemCall::Define),
        "defined" => Some(SystemCall::Defined),
        "function_exists" => Some(SystemCall::FunctionExists),
        "call_user_func" => Some(SystemCall::CallUserFunc),
        _ => None,
    }
}

// The call of a text in lower case.
fn text_named(name: &str) -> Option<LibraryCall>
    ensures { option_map callee_of result ≡ library_callee name.now }
{
    if let Some(call) = text_call_named(name) {
        return Some(LibraryCall::Text(call));
    }
    if let Some(call) = list_call_named(name) {
        return Some(LibraryCall::List(call));
    }
    match system_named(name) {
        Some(call) => Some(LibraryCall::System(call)),
        None => None,
    }
}

/// The library's call of a name in lower case.
pub fn library_named(name: &[u8]) -> Option<LibraryCall>
    ensures { option_map callee_of result ≡ library_callee name.now }
{
    match from_utf8(name) {
        Ok(text) => text_named(text),
        Err(_) => None,
    }
}
