// The library's calls.

use php_list_calls::ListCall;
use php_text_calls::TextCall;

/// A call that knows the run, named as in PHP.
#[derive(Clone, Copy, Debug, PartialEq, Eq)]
pub enum SystemCall {
    Define,
    Defined,
    FunctionExists,
    CallUserFunc,
}

/// A call of the library.
#[derive(Clone, Copy, Debug, PartialEq, Eq)]
pub enum LibraryCall {
    Text(TextCall),
    List(ListCall),
    System(SystemCall),
}
