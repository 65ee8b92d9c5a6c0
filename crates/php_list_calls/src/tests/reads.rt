use crate::tests::{One, Row, holds};
use php_arguments::CallFault;

#[test]
fn rows_of_count(rt: HostRuntime) {
    let alloc = rt.alloc();
    assert!(rt;
        holds(
            alloc,
            "count",
            &[Row::Ints(&[1, 2])],
            Row::One(One::Int(2)),
            Row::Same
        )
    );
    assert!(rt;
        holds(
            alloc,
            "count",
            &[Row::Ints(&[])],
            Row::One(One::Int(0)),
            Row::Same
        )
    );
    assert!(rt;
        holds(
            alloc,
            "count",
            &[Row::One(One::Int(5))],
            Row::Fault(CallFault::Mistyped),
            Row::Same
        )
    );
    assert!(rt; holds(alloc, "count", &[], Row::Fault(CallFault::Arity), Row::Same));
    assert!(rt;
        holds(
            alloc,
            "count",
            &[Row::Ints(&[1]), Row::Ints(&[2])],
            Row::Fault(CallFault::Arity),
            Row::Same
        )
    );
    assert!(rt;
        holds(
            alloc,
            "count",
            &[Row::One(One::Object)],
            Row::Fault(CallFault::Mistyped),
            Row::Same
        )
    );
}

#[test]
fn rows_of_in_array_1(rt: HostRuntime) {
    let alloc = rt.alloc();
    assert!(rt;
        holds(
            alloc,
            "in_array",
            &[Row::One(One::Text(b"a")), Row::Texts(&[b"b", b"a"])],
            Row::One(One::Truth(true)),
            Row::Same
        )
    );
    assert!(rt;
        holds(
            alloc,
            "in_array",
            &[Row::One(One::Int(2)), Row::Ints(&[1, 3])],
            Row::One(One::Truth(false)),
            Row::Same
        )
    );
    assert!(rt;
        holds(
            alloc,
            "in_array",
            &[Row::One(One::Text(b"1")), Row::Ints(&[1])],
            Row::One(One::Truth(true)),
            Row::Same
        )
    );
    assert!(rt;
        holds(
            alloc,
            "in_array",
            &[
                Row::One(One::Text(b"1")),
                Row::Ints(&[1]),
                Row::One(One::Truth(true)),
            ],
            Row::One(One::Truth(false)),
            Row::Same
        )
    );
    assert!(rt;
        holds(
            alloc,
            "in_array",
            &[Row::One(One::Text(b"abc")), Row::Ints(&[0])],
            Row::One(One::Truth(true)),
            Row::Same
        )
    );
    assert!(rt;
        holds(
            alloc,
            "in_array",
            &[
                Row::One(One::Text(b"abc")),
                Row::Ints(&[0]),
                Row::One(One::Truth(true)),
            ],
            Row::One(One::Truth(false)),
            Row::Same
        )
    );
}

#[test]
fn rows_of_in_array_2(rt: HostRuntime) {
    let alloc = rt.alloc();
    assert!(rt;
        holds(
            alloc,
            "in_array",
            &[Row::One(One::Text(b"1e1")), Row::Ints(&[10])],
            Row::Fault(CallFault::Float),
            Row::Same
        )
    );
    assert!(rt;
        holds(
            alloc,
            "in_array",
            &[
                Row::One(One::Text(b"1e1")),
                Row::Ints(&[10]),
                Row::One(One::Truth(true)),
            ],
            Row::One(One::Truth(false)),
            Row::Same
        )
    );
    assert!(rt;
        holds(
            alloc,
            "in_array",
            &[Row::One(One::Object), Row::Ints(&[1])],
            Row::Fault(CallFault::Mistyped),
            Row::Same
        )
    );
    assert!(rt;
        holds(
            alloc,
            "in_array",
            &[Row::One(One::Int(1)), Row::One(One::Int(2))],
            Row::Fault(CallFault::Mistyped),
            Row::Same
        )
    );
    assert!(rt;
        holds(
            alloc,
            "in_array",
            &[Row::One(One::Int(1))],
            Row::Fault(CallFault::Arity),
            Row::Same
        )
    );
    assert!(rt;
        holds(
            alloc,
            "in_array",
            &[
                Row::One(One::Null),
                Row::Pairs(&[b"0", b"1"], &[b"[]", b"0"]),
            ],
            Row::One(One::Truth(true)),
            Row::Same
        )
    );
}

#[test]
fn rows_of_in_array_3(rt: HostRuntime) {
    let alloc = rt.alloc();
    assert!(rt;
        holds(
            alloc,
            "in_array",
            &[Row::One(One::Text(b"x")), Row::Texts(&[b"x", b"1e1"])],
            Row::One(One::Truth(true)),
            Row::Same
        )
    );
}

#[test]
fn rows_of_array_search(rt: HostRuntime) {
    let alloc = rt.alloc();
    assert!(rt;
        holds(
            alloc,
            "array_search",
            &[
                Row::One(One::Text(b"b")),
                Row::Pairs(&[b"k", b"l"], &[b"'a", b"'b"]),
            ],
            Row::One(One::Text(b"l")),
            Row::Same
        )
    );
    assert!(rt;
        holds(
            alloc,
            "array_search",
            &[Row::One(One::Int(3)), Row::Ints(&[1, 2, 3, 3])],
            Row::One(One::Int(2)),
            Row::Same
        )
    );
    assert!(rt;
        holds(
            alloc,
            "array_search",
            &[Row::One(One::Int(9)), Row::Ints(&[1])],
            Row::One(One::Truth(false)),
            Row::Same
        )
    );
    assert!(rt;
        holds(
            alloc,
            "array_search",
            &[
                Row::One(One::Int(1)),
                Row::Texts(&[b"1"]),
                Row::One(One::Truth(true)),
            ],
            Row::One(One::Truth(false)),
            Row::Same
        )
    );
    assert!(rt;
        holds(
            alloc,
            "array_search",
            &[Row::One(One::Int(1)), Row::Ints(&[])],
            Row::One(One::Truth(false)),
            Row::Same
        )
    );
    assert!(rt;
        holds(
            alloc,
            "array_search",
            &[Row::One(One::Text(b"1.5")), Row::Ints(&[1])],
            Row::Fault(CallFault::Float),
            Row::Same
        )
    );
}

#[test]
fn rows_of_array_key_exists_1(rt: HostRuntime) {
    let alloc = rt.alloc();
    assert!(rt;
        holds(
            alloc,
            "array_key_exists",
            &[Row::One(One::Text(b"k")), Row::Pairs(&[b"k"], &[b"null"])],
            Row::One(One::Truth(true)),
            Row::Same
        )
    );
    assert!(rt;
        holds(
            alloc,
            "array_key_exists",
            &[Row::One(One::Text(b"08")), Row::Pairs(&[b"8"], &[b"1"])],
            Row::One(One::Truth(false)),
            Row::Same
        )
    );
    assert!(rt;
        holds(
            alloc,
            "array_key_exists",
            &[Row::One(One::Text(b"8")), Row::Pairs(&[b"8"], &[b"1"])],
            Row::One(One::Truth(true)),
            Row::Same
        )
    );
    assert!(rt;
        holds(
            alloc,
            "array_key_exists",
            &[Row::One(One::Truth(true)), Row::Pairs(&[b"1"], &[b"1"])],
            Row::One(One::Truth(true)),
            Row::Same
        )
    );
    assert!(rt;
        holds(
            alloc,
            "array_key_exists",
            &[Row::One(One::Null), Row::Pairs(&[b""], &[b"1"])],
            Row::One(One::Truth(true)),
            Row::Same
        )
    );
    assert!(rt;
        holds(
            alloc,
            "array_key_exists",
            &[Row::One(One::Int(1)), Row::Ints(&[5])],
            Row::One(One::Truth(false)),
            Row::Same
        )
    );
}

#[test]
fn rows_of_array_key_exists_2(rt: HostRuntime) {
    let alloc = rt.alloc();
    assert!(rt;
        holds(
            alloc,
            "array_key_exists",
            &[Row::Ints(&[1]), Row::Ints(&[5])],
            Row::Fault(CallFault::Mistyped),
            Row::Same
        )
    );
    assert!(rt;
        holds(
            alloc,
            "array_key_exists",
            &[Row::One(One::Int(1)), Row::One(One::Int(5))],
            Row::Fault(CallFault::Mistyped),
            Row::Same
        )
    );
    assert!(rt;
        holds(
            alloc,
            "array_key_exists",
            &[Row::One(One::Object), Row::Ints(&[5])],
            Row::Fault(CallFault::Mistyped),
            Row::Same
        )
    );
    assert!(rt;
        holds(
            alloc,
            "array_key_exists",
            &[Row::One(One::Int(1))],
            Row::Fault(CallFault::Arity),
            Row::Same
        )
    );
}

#[test]
fn rows_of_array_keys(rt: HostRuntime) {
    let alloc = rt.alloc();
    assert!(rt;
        holds(
            alloc,
            "array_keys",
            &[Row::Pairs(&[b"k", b"5"], &[b"1", b"2"])],
            Row::Pairs(&[b"0", b"1"], &[b"'k", b"5"]),
            Row::Same
        )
    );
    assert!(rt;
        holds(
            alloc,
            "array_keys",
            &[Row::Ints(&[])],
            Row::Ints(&[]),
            Row::Same
        )
    );
    assert!(rt;
        holds(
            alloc,
            "array_keys",
            &[Row::Ints(&[7, 8])],
            Row::Ints(&[0, 1]),
            Row::Same
        )
    );
    assert!(rt;
        holds(
            alloc,
            "array_keys",
            &[Row::One(One::Null)],
            Row::Fault(CallFault::Mistyped),
            Row::Same
        )
    );
}

#[test]
fn rows_of_array_values(rt: HostRuntime) {
    let alloc = rt.alloc();
    assert!(rt;
        holds(
            alloc,
            "array_values",
            &[Row::Pairs(&[b"k", b"5"], &[b"1", b"2"])],
            Row::Ints(&[1, 2]),
            Row::Same
        )
    );
    assert!(rt;
        holds(
            alloc,
            "array_values",
            &[Row::Pairs(&[], &[])],
            Row::Ints(&[]),
            Row::Same
        )
    );
    assert!(rt;
        holds(
            alloc,
            "array_values",
            &[Row::Pairs(&[b"9", b"-3"], &[b"'a", b"'b"])],
            Row::Texts(&[b"a", b"b"]),
            Row::Same
        )
    );
    assert!(rt;
        holds(
            alloc,
            "array_values",
            &[Row::One(One::Text(b"x"))],
            Row::Fault(CallFault::Mistyped),
            Row::Same
        )
    );
    assert!(rt;
        holds(
            alloc,
            "array_values",
            &[],
            Row::Fault(CallFault::Arity),
            Row::Same
        )
    );
}

#[test]
fn rows_of_array_merge_1(rt: HostRuntime) {
    let alloc = rt.alloc();
    assert!(rt;
        holds(
            alloc,
            "array_merge",
            &[
                Row::Pairs(&[b"5", b"k"], &[b"1", b"2"]),
                Row::Pairs(&[b"5", b"k"], &[b"3", b"4"]),
            ],
            Row::Pairs(&[b"0", b"k", b"1"], &[b"1", b"4", b"3"]),
            Row::Same
        )
    );
    assert!(rt;
        holds(
            alloc,
            "array_merge",
            &[Row::Ints(&[1])],
            Row::Ints(&[1]),
            Row::Same
        )
    );
    assert!(rt;
        holds(
            alloc,
            "array_merge",
            &[Row::Pairs(&[b"9"], &[b"1"])],
            Row::Ints(&[1]),
            Row::Same
        )
    );
    assert!(rt;
        holds(
            alloc,
            "array_merge",
            &[
                Row::Pairs(&[b"b", b"a"], &[b"1", b"2"]),
                Row::Pairs(&[b"a", b"c"], &[b"3", b"4"]),
            ],
            Row::Pairs(&[b"b", b"a", b"c"], &[b"1", b"3", b"4"]),
            Row::Same
        )
    );
    assert!(rt;
        holds(
            alloc,
            "array_merge",
            &[],
            Row::Fault(CallFault::Arity),
            Row::Same
        )
    );
    assert!(rt;
        holds(
            alloc,
            "array_merge",
            &[Row::Ints(&[1]), Row::One(One::Int(2))],
            Row::Fault(CallFault::Mistyped),
            Row::Same
        )
    );
}

#[test]
fn rows_of_array_merge_2(rt: HostRuntime) {
    let alloc = rt.alloc();
    assert!(rt;
        holds(
            alloc,
            "array_merge",
            &[Row::One(One::Int(1)), Row::Ints(&[2])],
            Row::Fault(CallFault::Mistyped),
            Row::Same
        )
    );
    assert!(rt;
        holds(
            alloc,
            "array_merge",
            &[Row::Ints(&[]), Row::Ints(&[]), Row::Ints(&[])],
            Row::Ints(&[]),
            Row::Same
        )
    );
}

#[test]
fn rows_of_array_slice_1(rt: HostRuntime) {
    let alloc = rt.alloc();
    assert!(rt;
        holds(
            alloc,
            "array_slice",
            &[
                Row::Ints(&[1, 2, 3, 4]),
                Row::One(One::Int(1)),
                Row::One(One::Int(2)),
            ],
            Row::Ints(&[2, 3]),
            Row::Same
        )
    );
    assert!(rt;
        holds(
            alloc,
            "array_slice",
            &[Row::Ints(&[1, 2, 3]), Row::One(One::Int(-2))],
            Row::Ints(&[2, 3]),
            Row::Same
        )
    );
    assert!(rt;
        holds(
            alloc,
            "array_slice",
            &[
                Row::Ints(&[1, 2, 3]),
                Row::One(One::Int(-9)),
                Row::One(One::Int(2)),
            ],
            Row::Ints(&[1, 2]),
            Row::Same
        )
    );
    assert!(rt;
        holds(
            alloc,
            "array_slice",
            &[Row::Ints(&[1, 2, 3]), Row::One(One::Int(3))],
            Row::Ints(&[]),
            Row::Same
        )
    );
    assert!(rt;
        holds(
            alloc,
            "array_slice",
            &[
                Row::Ints(&[1, 2, 3]),
                Row::One(One::Int(9)),
                Row::One(One::Int(1)),
            ],
            Row::Ints(&[]),
            Row::Same
        )
    );
    assert!(rt;
        holds(
            alloc,
            "array_slice",
            &[
                Row::Ints(&[1, 2, 3]),
                Row::One(One::Int(0)),
                Row::One(One::Int(-1)),
            ],
            Row::Ints(&[1, 2]),
            Row::Same
        )
    );
}

#[test]
fn rows_of_array_slice_2(rt: HostRuntime) {
    let alloc = rt.alloc();
    assert!(rt;
        holds(
            alloc,
            "array_slice",
            &[
                Row::Ints(&[1, 2, 3]),
                Row::One(One::Int(1)),
                Row::One(One::Int(-5)),
            ],
            Row::Ints(&[]),
            Row::Same
        )
    );
    assert!(rt;
        holds(
            alloc,
            "array_slice",
            &[
                Row::Pairs(&[b"k", b"7", b"l"], &[b"1", b"2", b"3"]),
                Row::One(One::Int(1)),
            ],
            Row::Pairs(&[b"0", b"l"], &[b"2", b"3"]),
            Row::Same
        )
    );
    assert!(rt;
        holds(
            alloc,
            "array_slice",
            &[
                Row::Ints(&[1, 2]),
                Row::One(One::Int(0)),
                Row::One(One::Null),
            ],
            Row::Ints(&[]),
            Row::Same
        )
    );
    assert!(rt;
        holds(
            alloc,
            "array_slice",
            &[Row::Ints(&[1, 2]), Row::One(One::Text(b"1e1"))],
            Row::Fault(CallFault::Float),
            Row::Same
        )
    );
    assert!(rt;
        holds(
            alloc,
            "array_slice",
            &[Row::Ints(&[1, 2]), Row::Ints(&[1])],
            Row::Fault(CallFault::Mistyped),
            Row::Same
        )
    );
    assert!(rt;
        holds(
            alloc,
            "array_slice",
            &[Row::Ints(&[1])],
            Row::Fault(CallFault::Arity),
            Row::Same
        )
    );
}

#[test]
fn rows_of_array_slice_3(rt: HostRuntime) {
    let alloc = rt.alloc();
    assert!(rt;
        holds(
            alloc,
            "array_slice",
            &[Row::One(One::Int(1)), Row::One(One::Int(1))],
            Row::Fault(CallFault::Mistyped),
            Row::Same
        )
    );
    assert!(rt;
        holds(
            alloc,
            "array_slice",
            &[
                Row::Ints(&[1, 2, 3]),
                Row::One(One::Int(i64::MIN)),
                Row::One(One::Int(9223372036854775807)),
            ],
            Row::Ints(&[1, 2, 3]),
            Row::Same
        )
    );
}

#[test]
fn rows_of_array_reverse(rt: HostRuntime) {
    let alloc = rt.alloc();
    assert!(rt;
        holds(
            alloc,
            "array_reverse",
            &[Row::Pairs(&[b"k", b"7", b"8"], &[b"1", b"2", b"3"])],
            Row::Pairs(&[b"0", b"1", b"k"], &[b"3", b"2", b"1"]),
            Row::Same
        )
    );
    assert!(rt;
        holds(
            alloc,
            "array_reverse",
            &[Row::Ints(&[1, 2, 3])],
            Row::Ints(&[3, 2, 1]),
            Row::Same
        )
    );
    assert!(rt;
        holds(
            alloc,
            "array_reverse",
            &[Row::Ints(&[])],
            Row::Ints(&[]),
            Row::Same
        )
    );
    assert!(rt;
        holds(
            alloc,
            "array_reverse",
            &[Row::One(One::Int(3))],
            Row::Fault(CallFault::Mistyped),
            Row::Same
        )
    );
    assert!(rt;
        holds(
            alloc,
            "array_reverse",
            &[],
            Row::Fault(CallFault::Arity),
            Row::Same
        )
    );
}
