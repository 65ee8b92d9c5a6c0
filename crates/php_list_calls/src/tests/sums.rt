use crate::tests::{One, Row, holds};
use php_arguments::CallFault;

#[test]
fn rows_of_array_sum_1(rt: HostRuntime) {
    let alloc = rt.alloc();
    assert!(rt;
        holds(
            alloc,
            "array_sum",
            &[Row::Ints(&[1, 2, 3])],
            Row::One(One::Int(6)),
            Row::Same
        )
    );
    assert!(rt;
        holds(
            alloc,
            "array_sum",
            &[Row::Ints(&[])],
            Row::One(One::Int(0)),
            Row::Same
        )
    );
    assert!(rt;
        holds(
            alloc,
            "array_sum",
            &[Row::Pairs(&[b"0", b"1", b"2"], &[b"true", b"null", b"'3x"])],
            Row::One(One::Int(4)),
            Row::Same
        )
    );
    assert!(rt;
        holds(
            alloc,
            "array_sum",
            &[Row::Texts(&[b"1.5"])],
            Row::Fault(CallFault::Float),
            Row::Same
        )
    );
    assert!(rt;
        holds(
            alloc,
            "array_sum",
            &[Row::Pairs(&[b"0", b"1"], &[b"[]", b"1"])],
            Row::Fault(CallFault::Mistyped),
            Row::Same
        )
    );
    assert!(rt;
        holds(
            alloc,
            "array_sum",
            &[Row::Pairs(&[b"0"], &[b"object"])],
            Row::Fault(CallFault::Mistyped),
            Row::Same
        )
    );
}

#[test]
fn rows_of_array_sum_2(rt: HostRuntime) {
    let alloc = rt.alloc();
    assert!(rt;
        holds(
            alloc,
            "array_sum",
            &[Row::Ints(&[9223372036854775807, 1])],
            Row::Fault(CallFault::Float),
            Row::Same
        )
    );
    assert!(rt;
        holds(
            alloc,
            "array_sum",
            &[Row::Pairs(&[b"0", b"1", b"2"], &[b"9223372036854775807", b"1", b"-1"])],
            Row::Fault(CallFault::Float),
            Row::Same
        )
    );
    assert!(rt;
        holds(
            alloc,
            "array_sum",
            &[Row::Pairs(&[b"0", b"1", b"2"], &[b"9223372036854775807", b"-1", b"1"])],
            Row::One(One::Int(9223372036854775807)),
            Row::Same
        )
    );
    assert!(rt;
        holds(
            alloc,
            "array_sum",
            &[Row::One(One::Int(5))],
            Row::Fault(CallFault::Mistyped),
            Row::Same
        )
    );
}

#[test]
fn rows_of_max_1(rt: HostRuntime) {
    let alloc = rt.alloc();
    assert!(rt;
        holds(
            alloc,
            "max",
            &[Row::Ints(&[3, 9, 2])],
            Row::One(One::Int(9)),
            Row::Same
        )
    );
    assert!(rt;
        holds(
            alloc,
            "max",
            &[Row::Ints(&[])],
            Row::One(One::Truth(false)),
            Row::Same
        )
    );
    assert!(rt;
        holds(
            alloc,
            "max",
            &[Row::Pairs(&[b"0"], &[b"-5"])],
            Row::One(One::Int(-5)),
            Row::Same
        )
    );
    assert!(rt;
        holds(
            alloc,
            "max",
            &[Row::Pairs(&[b"0", b"1"], &[b"1", b"'2"])],
            Row::Fault(CallFault::Sort),
            Row::Same
        )
    );
    assert!(rt;
        holds(
            alloc,
            "max",
            &[Row::Texts(&[b"a"])],
            Row::Fault(CallFault::Sort),
            Row::Same
        )
    );
    assert!(rt;
        holds(
            alloc,
            "max",
            &[Row::Ints(&[1]), Row::Ints(&[2])],
            Row::Fault(CallFault::Arity),
            Row::Same
        )
    );
}

#[test]
fn rows_of_max_2(rt: HostRuntime) {
    let alloc = rt.alloc();
    assert!(rt;
        holds(
            alloc,
            "max",
            &[Row::One(One::Int(7))],
            Row::Fault(CallFault::Mistyped),
            Row::Same
        )
    );
}

#[test]
fn rows_of_min(rt: HostRuntime) {
    let alloc = rt.alloc();
    assert!(rt;
        holds(
            alloc,
            "min",
            &[Row::Ints(&[3, 9, 2])],
            Row::One(One::Int(2)),
            Row::Same
        )
    );
    assert!(rt;
        holds(
            alloc,
            "min",
            &[Row::Ints(&[])],
            Row::One(One::Truth(false)),
            Row::Same
        )
    );
    assert!(rt;
        holds(
            alloc,
            "min",
            &[Row::Pairs(&[b"0", b"1"], &[b"-5", b"5"])],
            Row::One(One::Int(-5)),
            Row::Same
        )
    );
    assert!(rt;
        holds(
            alloc,
            "min",
            &[Row::Pairs(&[b"0", b"1"], &[b"1", b"null"])],
            Row::Fault(CallFault::Sort),
            Row::Same
        )
    );
    assert!(rt; holds(alloc, "min", &[], Row::Fault(CallFault::Arity), Row::Same));
}

#[test]
fn rows_of_range_1(rt: HostRuntime) {
    let alloc = rt.alloc();
    assert!(rt;
        holds(
            alloc,
            "range",
            &[Row::One(One::Int(1)), Row::One(One::Int(4))],
            Row::Ints(&[1, 2, 3, 4]),
            Row::Same
        )
    );
    assert!(rt;
        holds(
            alloc,
            "range",
            &[Row::One(One::Int(2)), Row::One(One::Int(-2))],
            Row::Pairs(
                &[b"0", b"1", b"2", b"3", b"4"],
                &[b"2", b"1", b"0", b"-1", b"-2"],
            ),
            Row::Same
        )
    );
    assert!(rt;
        holds(
            alloc,
            "range",
            &[Row::One(One::Int(5)), Row::One(One::Int(5))],
            Row::Ints(&[5]),
            Row::Same
        )
    );
    assert!(rt;
        holds(
            alloc,
            "range",
            &[Row::One(One::Text(b"2")), Row::One(One::Text(b"1"))],
            Row::Ints(&[2, 1]),
            Row::Same
        )
    );
    assert!(rt;
        holds(
            alloc,
            "range",
            &[
                Row::One(One::Int(9223372036854775806)),
                Row::One(One::Int(9223372036854775807)),
            ],
            Row::Ints(&[9223372036854775806, 9223372036854775807]),
            Row::Same
        )
    );
    assert!(rt;
        holds(
            alloc,
            "range",
            &[
                Row::One(One::Int(i64::MIN)),
                Row::One(One::Int(9223372036854775807)),
            ],
            Row::Fault(CallFault::Size),
            Row::Same
        )
    );
}

#[test]
fn rows_of_range_2(rt: HostRuntime) {
    let alloc = rt.alloc();
    assert!(rt;
        holds(
            alloc,
            "range",
            &[
                Row::One(One::Int(9223372036854775807)),
                Row::One(One::Int(i64::MIN)),
            ],
            Row::Fault(CallFault::Size),
            Row::Same
        )
    );
    assert!(rt;
        holds(
            alloc,
            "range",
            &[Row::One(One::Int(0)), Row::One(One::Int(100000))],
            Row::Fault(CallFault::Size),
            Row::Same
        )
    );
    assert!(rt;
        holds(
            alloc,
            "range",
            &[Row::One(One::Text(b"a")), Row::One(One::Text(b"c"))],
            Row::Ints(&[0]),
            Row::Same
        )
    );
    assert!(rt;
        holds(
            alloc,
            "range",
            &[Row::One(One::Text(b"1.5")), Row::One(One::Int(2))],
            Row::Fault(CallFault::Float),
            Row::Same
        )
    );
    assert!(rt;
        holds(
            alloc,
            "range",
            &[Row::Ints(&[1]), Row::One(One::Int(2))],
            Row::Fault(CallFault::Mistyped),
            Row::Same
        )
    );
    assert!(rt;
        holds(
            alloc,
            "range",
            &[Row::One(One::Int(1))],
            Row::Fault(CallFault::Arity),
            Row::Same
        )
    );
}

#[test]
fn rows_of_array_flip(rt: HostRuntime) {
    let alloc = rt.alloc();
    assert!(rt;
        holds(
            alloc,
            "array_flip",
            &[Row::Texts(&[b"a", b"b"])],
            Row::Pairs(&[b"a", b"b"], &[b"0", b"1"]),
            Row::Same
        )
    );
    assert!(rt;
        holds(
            alloc,
            "array_flip",
            &[Row::Pairs(&[b"k", b"l"], &[b"'8", b"5"])],
            Row::Pairs(&[b"8", b"5"], &[b"'k", b"'l"]),
            Row::Same
        )
    );
    assert!(rt;
        holds(
            alloc,
            "array_flip",
            &[Row::Texts(&[b"x", b"x"])],
            Row::Pairs(&[b"x"], &[b"1"]),
            Row::Same
        )
    );
    assert!(rt;
        holds(
            alloc,
            "array_flip",
            &[Row::Pairs(&[b"0", b"1", b"2", b"3"], &[b"null", b"true", b"[]", b"7"])],
            Row::Pairs(&[b"7"], &[b"3"]),
            Row::Same
        )
    );
    assert!(rt;
        holds(
            alloc,
            "array_flip",
            &[Row::Ints(&[])],
            Row::Ints(&[]),
            Row::Same
        )
    );
    assert!(rt;
        holds(
            alloc,
            "array_flip",
            &[Row::One(One::Int(1))],
            Row::Fault(CallFault::Mistyped),
            Row::Same
        )
    );
}

#[test]
fn rows_of_array_unique_1(rt: HostRuntime) {
    let alloc = rt.alloc();
    assert!(rt;
        holds(
            alloc,
            "array_unique",
            &[Row::Texts(&[b"a", b"b", b"a"])],
            Row::Texts(&[b"a", b"b"]),
            Row::Same
        )
    );
    assert!(rt;
        holds(
            alloc,
            "array_unique",
            &[Row::Pairs(&[b"3", b"5", b"7", b"9"], &[b"1", b"'1", b"true", b"2"])],
            Row::Pairs(&[b"3", b"9"], &[b"1", b"2"]),
            Row::Same
        )
    );
    assert!(rt;
        holds(
            alloc,
            "array_unique",
            &[Row::Pairs(&[b"0", b"1", b"2"], &[b"null", b"'", b"false"])],
            Row::Pairs(&[b"0"], &[b"null"]),
            Row::Same
        )
    );
    assert!(rt;
        holds(
            alloc,
            "array_unique",
            &[Row::Pairs(&[b"0"], &[b"[]"])],
            Row::Fault(CallFault::Mistyped),
            Row::Same
        )
    );
    assert!(rt;
        holds(
            alloc,
            "array_unique",
            &[Row::Pairs(&[b"0", b"1"], &[b"'a", b"object"])],
            Row::Fault(CallFault::Mistyped),
            Row::Same
        )
    );
    assert!(rt;
        holds(
            alloc,
            "array_unique",
            &[Row::Ints(&[])],
            Row::Ints(&[]),
            Row::Same
        )
    );
}

#[test]
fn rows_of_array_unique_2(rt: HostRuntime) {
    let alloc = rt.alloc();
    assert!(rt;
        holds(
            alloc,
            "array_unique",
            &[],
            Row::Fault(CallFault::Arity),
            Row::Same
        )
    );
}
