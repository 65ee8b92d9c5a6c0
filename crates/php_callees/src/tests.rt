// Names of functions and calls.
use crate::{Passing, callee_of, handed_over, is_taken};
use php_tables::Functions;

#[test]
fn names_of_the_library_are_taken(rt: HostRuntime) {
    let functions = Functions::new(rt.alloc());
    assert!(rt; is_taken(&functions, b"strlen"));
    assert!(rt; !is_taken(&functions, b"strlens"));
}

#[test]
fn arrays_are_sorted_in_their_variables(rt: HostRuntime) {
    let functions = Functions::new(rt.alloc());
    let Some(sort) = callee_of(&functions, b"sort") else {
        assert!(rt; false);
        return;
    };
    assert!(rt; handed_over(sort, 0) == Passing::ByName);
    assert!(rt; handed_over(sort, 1) == Passing::ByValue);
}
