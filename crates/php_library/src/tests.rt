// Names of calls.
use crate::{LibraryCall, SystemCall, library_named};
use php_list_calls::ListCall;
use php_text_calls::TextCall;

#[test]
fn names_are_calls(rt: HostRuntime) {
    assert!(rt; library_named(b"strlen") == Some(LibraryCall::Text(TextCall::Strlen)));
    assert!(rt; library_named(b"count") == Some(LibraryCall::List(ListCall::Count)));
    assert!(rt; library_named(b"define") == Some(LibraryCall::System(SystemCall::Define)));
    assert!(rt; library_named(b"Strlen").is_none());
    assert!(rt; library_named(b"strlen\xff").is_none());
}
