use crate::ListCall;
use crate::tests::{One, Row, changed, holds, is_row, pushed, value};
use php_arguments::CallFault;
use php_values::copy_value;
use std::alloc::Global;

#[test]
fn rows_of_array_push_1(rt: HostRuntime) {
    let alloc = rt.alloc();
    assert!(rt;
        holds(
            alloc,
            "array_push",
            &[
                Row::Ints(&[1]),
                Row::One(One::Int(2)),
                Row::One(One::Int(3)),
            ],
            Row::One(One::Int(3)),
            Row::Ints(&[1, 2, 3])
        )
    );
    assert!(rt;
        holds(
            alloc,
            "array_push",
            &[Row::Ints(&[1])],
            Row::One(One::Int(1)),
            Row::Ints(&[1])
        )
    );
    assert!(rt;
        holds(
            alloc,
            "array_push",
            &[
                Row::Pairs(&[b"k", b"-5"], &[b"1", b"2"]),
                Row::One(One::Int(3)),
            ],
            Row::One(One::Int(3)),
            Row::Pairs(&[b"k", b"-5", b"0"], &[b"1", b"2", b"3"])
        )
    );
    assert!(rt;
        holds(
            alloc,
            "array_push",
            &[
                Row::Pairs(&[b"9223372036854775807"], &[b"1"]),
                Row::One(One::Int(2)),
            ],
            Row::Fault(CallFault::Keys),
            Row::Same
        )
    );
    assert!(rt;
        holds(
            alloc,
            "array_push",
            &[Row::Pairs(&[b"9223372036854775807"], &[b"1"])],
            Row::One(One::Int(1)),
            Row::Pairs(&[b"9223372036854775807"], &[b"1"])
        )
    );
    assert!(rt;
        holds(
            alloc,
            "array_push",
            &[Row::One(One::Int(5)), Row::One(One::Int(1))],
            Row::Fault(CallFault::Mistyped),
            Row::Same
        )
    );
}

#[test]
fn rows_of_array_push_2(rt: HostRuntime) {
    let alloc = rt.alloc();
    assert!(rt;
        holds(
            alloc,
            "array_push",
            &[],
            Row::Fault(CallFault::Arity),
            Row::Same
        )
    );
    assert!(rt;
        holds(
            alloc,
            "array_push",
            &[Row::Ints(&[]), Row::One(One::Object)],
            Row::One(One::Int(1)),
            Row::Pairs(&[b"0"], &[b"object"])
        )
    );
}

#[test]
fn rows_of_array_pop(rt: HostRuntime) {
    let alloc = rt.alloc();
    assert!(rt;
        holds(
            alloc,
            "array_pop",
            &[Row::Ints(&[1, 2])],
            Row::One(One::Int(2)),
            Row::Ints(&[1])
        )
    );
    assert!(rt;
        holds(
            alloc,
            "array_pop",
            &[Row::Ints(&[])],
            Row::One(One::Null),
            Row::Ints(&[])
        )
    );
    assert!(rt;
        holds(
            alloc,
            "array_pop",
            &[Row::Pairs(&[b"k", b"l"], &[b"1", b"2"])],
            Row::One(One::Int(2)),
            Row::Pairs(&[b"k"], &[b"1"])
        )
    );
    assert!(rt;
        holds(
            alloc,
            "array_pop",
            &[Row::One(One::Int(5))],
            Row::Fault(CallFault::Mistyped),
            Row::Same
        )
    );
    assert!(rt;
        holds(
            alloc,
            "array_pop",
            &[Row::Ints(&[1]), Row::One(One::Int(2))],
            Row::Fault(CallFault::Arity),
            Row::Same
        )
    );
    assert!(rt;
        holds(
            alloc,
            "array_pop",
            &[],
            Row::Fault(CallFault::Arity),
            Row::Same
        )
    );
}

#[test]
fn rows_of_array_shift(rt: HostRuntime) {
    let alloc = rt.alloc();
    assert!(rt;
        holds(
            alloc,
            "array_shift",
            &[Row::Pairs(&[b"4", b"k", b"7"], &[b"1", b"2", b"3"])],
            Row::One(One::Int(1)),
            Row::Pairs(&[b"k", b"0"], &[b"2", b"3"])
        )
    );
    assert!(rt;
        holds(
            alloc,
            "array_shift",
            &[Row::Ints(&[])],
            Row::One(One::Null),
            Row::Ints(&[])
        )
    );
    assert!(rt;
        holds(
            alloc,
            "array_shift",
            &[Row::Texts(&[b"a", b"b"])],
            Row::One(One::Text(b"a")),
            Row::Texts(&[b"b"])
        )
    );
    assert!(rt;
        holds(
            alloc,
            "array_shift",
            &[Row::One(One::Null)],
            Row::Fault(CallFault::Mistyped),
            Row::Same
        )
    );
    assert!(rt;
        holds(
            alloc,
            "array_shift",
            &[],
            Row::Fault(CallFault::Arity),
            Row::Same
        )
    );
}

#[test]
fn rows_of_array_unshift(rt: HostRuntime) {
    let alloc = rt.alloc();
    assert!(rt;
        holds(
            alloc,
            "array_unshift",
            &[
                Row::Pairs(&[b"4", b"k"], &[b"1", b"2"]),
                Row::One(One::Int(9)),
            ],
            Row::One(One::Int(3)),
            Row::Pairs(&[b"0", b"1", b"k"], &[b"9", b"1", b"2"])
        )
    );
    assert!(rt;
        holds(
            alloc,
            "array_unshift",
            &[Row::Ints(&[]), Row::One(One::Int(1))],
            Row::One(One::Int(1)),
            Row::Ints(&[1])
        )
    );
    assert!(rt;
        holds(
            alloc,
            "array_unshift",
            &[Row::Ints(&[1])],
            Row::Fault(CallFault::Arity),
            Row::Same
        )
    );
    assert!(rt;
        holds(
            alloc,
            "array_unshift",
            &[Row::One(One::Int(1)), Row::One(One::Int(2))],
            Row::Fault(CallFault::Mistyped),
            Row::Same
        )
    );
    assert!(rt;
        holds(
            alloc,
            "array_unshift",
            &[
                Row::Ints(&[1]),
                Row::One(One::Int(2)),
                Row::One(One::Int(3)),
            ],
            Row::Fault(CallFault::Arity),
            Row::Same
        )
    );
}

#[test]
fn rows_of_sort_1(rt: HostRuntime) {
    let alloc = rt.alloc();
    assert!(rt;
        holds(
            alloc,
            "sort",
            &[Row::Ints(&[3, 1, 2])],
            Row::One(One::Truth(true)),
            Row::Ints(&[1, 2, 3])
        )
    );
    assert!(rt;
        holds(
            alloc,
            "sort",
            &[Row::Texts(&[b"b", b"a", b"Z"])],
            Row::One(One::Truth(true)),
            Row::Texts(&[b"Z", b"a", b"b"])
        )
    );
    assert!(rt;
        holds(
            alloc,
            "sort",
            &[Row::Pairs(&[b"k", b"l"], &[b"2", b"1"])],
            Row::One(One::Truth(true)),
            Row::Ints(&[1, 2])
        )
    );
    assert!(rt;
        holds(
            alloc,
            "sort",
            &[Row::Ints(&[])],
            Row::One(One::Truth(true)),
            Row::Ints(&[])
        )
    );
    assert!(rt;
        holds(
            alloc,
            "sort",
            &[Row::Pairs(&[b"0", b"1"], &[b"1", b"'a"])],
            Row::Fault(CallFault::Sort),
            Row::Same
        )
    );
    assert!(rt;
        holds(
            alloc,
            "sort",
            &[Row::Texts(&[b"10", b"9"])],
            Row::Fault(CallFault::Sort),
            Row::Same
        )
    );
}

#[test]
fn rows_of_sort_2(rt: HostRuntime) {
    let alloc = rt.alloc();
    assert!(rt;
        holds(
            alloc,
            "sort",
            &[Row::Texts(&[b"a", b"1e"])],
            Row::One(One::Truth(true)),
            Row::Texts(&[b"1e", b"a"])
        )
    );
    assert!(rt;
        holds(
            alloc,
            "sort",
            &[Row::Pairs(&[b"0"], &[b"null"])],
            Row::Fault(CallFault::Sort),
            Row::Same
        )
    );
    assert!(rt;
        holds(
            alloc,
            "sort",
            &[Row::One(One::Int(1))],
            Row::Fault(CallFault::Mistyped),
            Row::Same
        )
    );
    assert!(rt; holds(alloc, "sort", &[], Row::Fault(CallFault::Arity), Row::Same));
    assert!(rt;
        holds(
            alloc,
            "sort",
            &[Row::Texts(&[b"ab", b"a", b"b", b""])],
            Row::One(One::Truth(true)),
            Row::Texts(&[b"", b"a", b"ab", b"b"])
        )
    );
}

#[test]
fn rows_of_rsort(rt: HostRuntime) {
    let alloc = rt.alloc();
    assert!(rt;
        holds(
            alloc,
            "rsort",
            &[Row::Ints(&[1, 3, 2])],
            Row::One(One::Truth(true)),
            Row::Ints(&[3, 2, 1])
        )
    );
    assert!(rt;
        holds(
            alloc,
            "rsort",
            &[Row::Texts(&[b"a", b"b"])],
            Row::One(One::Truth(true)),
            Row::Texts(&[b"b", b"a"])
        )
    );
    assert!(rt;
        holds(
            alloc,
            "rsort",
            &[Row::Pairs(&[b"0"], &[b"true"])],
            Row::Fault(CallFault::Sort),
            Row::Same
        )
    );
    assert!(rt;
        holds(
            alloc,
            "rsort",
            &[Row::Ints(&[]), Row::One(One::Int(1))],
            Row::Fault(CallFault::Arity),
            Row::Same
        )
    );
}

#[test]
fn rows_of_asort(rt: HostRuntime) {
    let alloc = rt.alloc();
    assert!(rt;
        holds(
            alloc,
            "asort",
            &[Row::Pairs(&[b"a", b"b", b"c", b"d"], &[b"2", b"1", b"2", b"1"])],
            Row::One(One::Truth(true)),
            Row::Pairs(&[b"b", b"d", b"a", b"c"], &[b"1", b"1", b"2", b"2"])
        )
    );
    assert!(rt;
        holds(
            alloc,
            "asort",
            &[Row::Pairs(&[b"9", b"3", b"5"], &[b"'x", b"'x", b"'a"])],
            Row::One(One::Truth(true)),
            Row::Pairs(&[b"5", b"9", b"3"], &[b"'a", b"'x", b"'x"])
        )
    );
    assert!(rt;
        holds(
            alloc,
            "asort",
            &[Row::Texts(&[b"1", b"2"])],
            Row::Fault(CallFault::Sort),
            Row::Same
        )
    );
    assert!(rt;
        holds(
            alloc,
            "asort",
            &[Row::One(One::Int(5))],
            Row::Fault(CallFault::Mistyped),
            Row::Same
        )
    );
}

#[test]
fn rows_of_arsort(rt: HostRuntime) {
    let alloc = rt.alloc();
    assert!(rt;
        holds(
            alloc,
            "arsort",
            &[Row::Pairs(&[b"a", b"b", b"c", b"d"], &[b"2", b"1", b"2", b"1"])],
            Row::One(One::Truth(true)),
            Row::Pairs(&[b"a", b"c", b"b", b"d"], &[b"2", b"2", b"1", b"1"])
        )
    );
    assert!(rt;
        holds(
            alloc,
            "arsort",
            &[Row::Pairs(&[b"3", b"9"], &[b"'x", b"'x"])],
            Row::One(One::Truth(true)),
            Row::Pairs(&[b"3", b"9"], &[b"'x", b"'x"])
        )
    );
    assert!(rt;
        holds(
            alloc,
            "arsort",
            &[Row::Pairs(&[b"0", b"1"], &[b"1", b"'x"])],
            Row::Fault(CallFault::Sort),
            Row::Same
        )
    );
    assert!(rt;
        holds(
            alloc,
            "arsort",
            &[Row::Ints(&[])],
            Row::One(One::Truth(true)),
            Row::Ints(&[])
        )
    );
}

#[test]
fn rows_of_ksort(rt: HostRuntime) {
    let alloc = rt.alloc();
    assert!(rt;
        holds(
            alloc,
            "ksort",
            &[Row::Pairs(&[b"9", b"-2", b"4"], &[b"1", b"2", b"3"])],
            Row::One(One::Truth(true)),
            Row::Pairs(&[b"-2", b"4", b"9"], &[b"2", b"3", b"1"])
        )
    );
    assert!(rt;
        holds(
            alloc,
            "ksort",
            &[Row::Pairs(&[b"b", b"a"], &[b"1", b"object"])],
            Row::One(One::Truth(true)),
            Row::Pairs(&[b"a", b"b"], &[b"object", b"1"])
        )
    );
    assert!(rt;
        holds(
            alloc,
            "ksort",
            &[Row::Pairs(&[b"b", b"0"], &[b"1", b"2"])],
            Row::Fault(CallFault::Sort),
            Row::Same
        )
    );
    assert!(rt;
        holds(
            alloc,
            "ksort",
            &[Row::Pairs(&[b"08", b"a"], &[b"1", b"2"])],
            Row::Fault(CallFault::Sort),
            Row::Same
        )
    );
    assert!(rt; holds(alloc, "ksort", &[], Row::Fault(CallFault::Arity), Row::Same));
}

#[test]
fn rows_of_krsort(rt: HostRuntime) {
    let alloc = rt.alloc();
    assert!(rt;
        holds(
            alloc,
            "krsort",
            &[Row::Pairs(&[b"9", b"-2", b"4"], &[b"1", b"2", b"3"])],
            Row::One(One::Truth(true)),
            Row::Pairs(&[b"9", b"4", b"-2"], &[b"1", b"3", b"2"])
        )
    );
    assert!(rt;
        holds(
            alloc,
            "krsort",
            &[Row::Pairs(&[b"a", b"b"], &[b"1", b"2"])],
            Row::One(One::Truth(true)),
            Row::Pairs(&[b"b", b"a"], &[b"2", b"1"])
        )
    );
    assert!(rt;
        holds(
            alloc,
            "krsort",
            &[Row::Pairs(&[b"", b"x"], &[b"1", b"2"])],
            Row::One(One::Truth(true)),
            Row::Pairs(&[b"x", b""], &[b"2", b"1"])
        )
    );
    assert!(rt;
        holds(
            alloc,
            "krsort",
            &[Row::One(One::Null)],
            Row::Fault(CallFault::Mistyped),
            Row::Same
        )
    );
}

// Whether an array is as a row says after a call, and after one more value.
fn goes_on(
    alloc: Global,
    array: Row,
    call: ListCall,
    after: Row,
    more: Row,
) -> Result<bool, CallFault> {
    let (_given, left) = changed(alloc, call, value(alloc, array)?)?;
    let was = is_row(alloc, &left, after)?;
    let grown = pushed(alloc, left, 9)?;
    let is = is_row(alloc, &grown, more)?;
    Ok(was && is)
}

fn is_true(answer: Result<bool, CallFault>) -> bool {
    match answer {
        Ok(b) => b,
        Err(_) => false,
    }
}

#[test]
fn next_keys(rt: HostRuntime) {
    let alloc = rt.alloc();
    // a key that was taken off is used again, where it was the one before the next
    assert!(rt;
        is_true(goes_on(
            alloc,
            Row::Ints(&[1, 2]),
            ListCall::ArrayPop,
            Row::Ints(&[1]),
            Row::Ints(&[1, 9])
        ))
    );
    let gap = Row::Pairs(&[b"5", b"k"], &[b"1", b"2"]);
    let left = Row::Pairs(&[b"5"], &[b"1"]);
    let grown = Row::Pairs(&[b"5", b"6"], &[b"1", b"9"]);
    assert!(rt; is_true(goes_on(alloc, gap, ListCall::ArrayPop, left, grown)));
    // a negative key leaves the next key
    let negative = Row::Pairs(&[b"-1"], &[b"1"]);
    assert!(rt;
        is_true(goes_on(
            alloc,
            negative,
            ListCall::ArrayPop,
            Row::Ints(&[]),
            Row::Ints(&[9])
        ))
    );
    // no key is left after the greatest one, also where it is taken off
    let last = Row::Pairs(&[b"9223372036854775807"], &[b"1"]);
    assert!(rt;
        goes_on(
            alloc,
            last,
            ListCall::ArrayPop,
            Row::Ints(&[]),
            Row::Ints(&[])
        ) == Err(CallFault::Keys)
    );
    // number keys are counted anew
    assert!(rt;
        is_true(goes_on(
            alloc,
            left,
            ListCall::ArrayShift,
            Row::Ints(&[]),
            Row::Ints(&[9])
        ))
    );
    // an array that is sorted with its keys keeps its next key
    let mixed = Row::Pairs(&[b"3", b"7"], &[b"2", b"1"]);
    let sorted = Row::Pairs(&[b"7", b"3"], &[b"1", b"2"]);
    let more = Row::Pairs(&[b"7", b"3", b"8"], &[b"1", b"2", b"9"]);
    assert!(rt; is_true(goes_on(alloc, mixed, ListCall::Asort, sorted, more)));
}

// Whether a copy of an array stays as it was when the array is changed.
fn copy_stays(alloc: Global, row: Row) -> Result<bool, CallFault> {
    let array = value(alloc, row)?;
    let copy = copy_value(&array)?;
    let (_given, _left) = changed(alloc, ListCall::ArrayPop, array)?;
    is_row(alloc, &copy, row)
}

#[test]
fn copies_stay(rt: HostRuntime) {
    assert!(rt; is_true(copy_stays(rt.alloc(), Row::Ints(&[1, 2, 3]))));
}
