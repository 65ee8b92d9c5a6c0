use crate::{TextCall, text_call, text_call_named};
use order_map::{ByteText, Key, OrderMap};
use php_arguments::{CallFault, push_value};
use php_values::{ArrayValue, Value};
use std::alloc::Global;
use std::test::Fail;

// An argument of a row, or the value that the row gives.
#[derive(Clone, Copy)]
enum Row {
    Null,
    Truth(bool),
    Int(i64),
    Text(&'static [u8]),
    Texts(&'static [&'static [u8]]),
    Object,
    Fault(CallFault),
}

fn list(alloc: Global, texts: &[&[u8]]) -> Result<Value, CallFault> {
    let mut map = OrderMap::new(alloc);
    for text in texts {
        push_value(&mut map, Value::Bytes(ByteText::from_slice(alloc, *text)?))?;
    }
    Ok(Value::List(ArrayValue::new(alloc, map)?))
}

fn value(alloc: Global, row: Row) -> Result<Value, CallFault> {
    match row {
        Row::Null => Ok(Value::Null),
        Row::Truth(b) => Ok(Value::Bool(b)),
        Row::Int(n) => Ok(Value::Int(n)),
        Row::Text(t) => Ok(Value::Bytes(ByteText::from_slice(alloc, t)?)),
        Row::Texts(ts) => list(alloc, ts),
        Row::Object => Ok(Value::Object(7)),
        Row::Fault(fault) => Err(fault),
    }
}

fn has_texts(map: &OrderMap<Value>, texts: &[&[u8]]) -> bool {
    if map.len() != texts.len() {
        return false;
    }
    for (i, text) in texts.iter().enumerate() {
        match map.get(&Key::Int(i as i64)) {
            Some(Value::Bytes(t)) => {
                if t.as_slice() != *text {
                    return false;
                }
            }
            _ => return false,
        }
    }
    true
}

fn gives(answer: &Result<Value, CallFault>, row: Row) -> bool {
    match (answer, row) {
        (Ok(Value::Null), Row::Null) => true,
        (Ok(Value::Bool(a)), Row::Truth(b)) => *a == b,
        (Ok(Value::Int(a)), Row::Int(b)) => *a == b,
        (Ok(Value::Bytes(a)), Row::Text(b)) => a.as_slice() == b,
        (Ok(Value::List(a)), Row::Texts(b)) => has_texts(a.map.as_ref(), b),
        (Err(a), Row::Fault(b)) => *a == b,
        _ => false,
    }
}

// Whether the call of a name gives what the row says.
fn holds(alloc: Global, name: &str, args: &[Row], expected: Row) -> Result<bool, CallFault> {
    let Some(call) = text_call_named(name) else {
        return Ok(false);
    };
    let mut values = Vec::new(alloc);
    for row in args {
        values.push(value(alloc, *row)?)?;
    }
    let answer = text_call(alloc, call, values.as_slice());
    Ok(gives(&answer, expected))
}

fn all_hold(alloc: Global, rows: &[(&str, &[Row], Row)]) -> bool {
    for (name, args, expected) in rows {
        match holds(alloc, *name, *args, *expected) {
            Ok(true) => {}
            _ => return false,
        }
    }
    true
}

#[test]
fn rows_of_letters(rt: HostRuntime) {
    let rows: [(&str, &[Row], Row); 35] = [
        ("strlen", &[Row::Text(b"a\0b")], Row::Int(3)),
        ("strlen", &[Row::Int(-12)], Row::Int(3)),
        ("strlen", &[Row::Null], Row::Int(0)),
        ("strlen", &[Row::Object], Row::Fault(CallFault::Mistyped)),
        ("strlen", &[], Row::Fault(CallFault::Arity)),
        (
            "strtolower",
            &[Row::Text(b"AbZ[\xc4")],
            Row::Text(b"abz[\xc4"),
        ),
        ("strtolower", &[Row::Text(b"")], Row::Text(b"")),
        ("strtolower", &[Row::Truth(true)], Row::Text(b"1")),
        (
            "strtolower",
            &[Row::Text(b"a"), Row::Text(b"b")],
            Row::Fault(CallFault::Arity),
        ),
        (
            "strtoupper",
            &[Row::Text(b"abz{\xe4")],
            Row::Text(b"ABZ{\xe4"),
        ),
        ("strtoupper", &[Row::Text(b"")], Row::Text(b"")),
        ("strtoupper", &[Row::Int(5)], Row::Text(b"5")),
        (
            "strtoupper",
            &[Row::Texts(&[])],
            Row::Fault(CallFault::Mistyped),
        ),
        ("ucfirst", &[Row::Text(b"abc")], Row::Text(b"Abc")),
        ("ucfirst", &[Row::Text(b"")], Row::Text(b"")),
        ("ucfirst", &[Row::Text(b" a")], Row::Text(b" a")),
        ("ucfirst", &[Row::Text(b"\xe4b")], Row::Text(b"\xe4b")),
        ("strrev", &[Row::Text(b"abc")], Row::Text(b"cba")),
        ("strrev", &[Row::Text(b"")], Row::Text(b"")),
        ("strrev", &[Row::Int(-1)], Row::Text(b"1-")),
        ("strrev", &[Row::Object], Row::Fault(CallFault::Mistyped)),
        ("ord", &[Row::Text(b"a")], Row::Int(97)),
        ("ord", &[Row::Text(b"")], Row::Int(0)),
        ("ord", &[Row::Text(b"\xff1")], Row::Int(255)),
        ("ord", &[Row::Null], Row::Int(0)),
        ("chr", &[Row::Int(65)], Row::Text(b"A")),
        ("chr", &[Row::Int(256)], Row::Text(b"\0")),
        ("chr", &[Row::Int(-1)], Row::Text(b"\xff")),
        ("chr", &[Row::Int(-256)], Row::Text(b"\0")),
        ("chr", &[Row::Text(b"1e1")], Row::Fault(CallFault::Float)),
        ("strcmp", &[Row::Text(b"a"), Row::Text(b"b")], Row::Int(-1)),
        ("strcmp", &[Row::Text(b"b"), Row::Text(b"a")], Row::Int(1)),
        ("strcmp", &[Row::Text(b"a"), Row::Text(b"a")], Row::Int(0)),
        ("strcmp", &[Row::Text(b"a"), Row::Text(b"aa")], Row::Int(-1)),
        ("strcmp", &[Row::Text(b""), Row::Null], Row::Int(0)),
    ];
    assert!(rt; all_hold(rt.alloc(), &rows));
}

#[test]
fn rows_of_ends(rt: HostRuntime) {
    let rows: [(&str, &[Row], Row); 22] = [
        (
            "trim",
            &[Row::Text(b" \t\n\r\0\x0ba b \n")],
            Row::Text(b"a b"),
        ),
        ("trim", &[Row::Text(b"   ")], Row::Text(b"")),
        ("trim", &[Row::Text(b"\x0ca")], Row::Text(b"\x0ca")),
        ("trim", &[Row::Text(b"a")], Row::Text(b"a")),
        ("ltrim", &[Row::Text(b"  a ")], Row::Text(b"a ")),
        ("ltrim", &[Row::Text(b"")], Row::Text(b"")),
        ("ltrim", &[Row::Text(b"\0")], Row::Text(b"")),
        ("ltrim", &[Row::Int(3)], Row::Text(b"3")),
        ("rtrim", &[Row::Text(b" a  ")], Row::Text(b" a")),
        ("rtrim", &[Row::Text(b"")], Row::Text(b"")),
        ("rtrim", &[Row::Text(b"a\n")], Row::Text(b"a")),
        ("rtrim", &[Row::Texts(&[])], Row::Fault(CallFault::Mistyped)),
        ("dirname", &[Row::Text(b"a/b/c")], Row::Text(b"a/b")),
        ("dirname", &[Row::Text(b"a")], Row::Text(b".")),
        ("dirname", &[Row::Text(b"/a")], Row::Text(b"/")),
        ("dirname", &[Row::Text(b"")], Row::Text(b".")),
        ("dirname", &[Row::Text(b"a/")], Row::Text(b"a")),
        ("basename", &[Row::Text(b"a/b")], Row::Text(b"b")),
        ("basename", &[Row::Text(b"a")], Row::Text(b"a")),
        ("basename", &[Row::Text(b"a/")], Row::Text(b"")),
        ("basename", &[Row::Text(b"/")], Row::Text(b"")),
        ("basename", &[Row::Text(b"")], Row::Text(b"")),
    ];
    assert!(rt; all_hold(rt.alloc(), &rows));
}

#[test]
fn rows_of_parts(rt: HostRuntime) {
    let rows: [(&str, &[Row], Row); 30] = [
        (
            "substr",
            &[Row::Text(b"abcdef"), Row::Int(2)],
            Row::Text(b"cdef"),
        ),
        (
            "substr",
            &[Row::Text(b"abcdef"), Row::Int(-2)],
            Row::Text(b"ef"),
        ),
        (
            "substr",
            &[Row::Text(b"abc"), Row::Int(-9)],
            Row::Text(b"abc"),
        ),
        ("substr", &[Row::Text(b"abc"), Row::Int(3)], Row::Text(b"")),
        (
            "substr",
            &[Row::Text(b"abc"), Row::Int(4)],
            Row::Truth(false),
        ),
        (
            "substr",
            &[Row::Text(b"abcdef"), Row::Int(1), Row::Int(3)],
            Row::Text(b"bcd"),
        ),
        (
            "substr",
            &[Row::Text(b"abcdef"), Row::Int(1), Row::Int(-2)],
            Row::Text(b"bcd"),
        ),
        (
            "substr",
            &[Row::Text(b"abc"), Row::Int(2), Row::Int(-1)],
            Row::Text(b""),
        ),
        (
            "substr",
            &[Row::Text(b"abc"), Row::Int(2), Row::Int(-2)],
            Row::Truth(false),
        ),
        (
            "substr",
            &[Row::Text(b"abc"), Row::Int(0), Row::Int(-5)],
            Row::Truth(false),
        ),
        (
            "substr",
            &[Row::Text(b"abc"), Row::Int(0), Row::Int(99)],
            Row::Text(b"abc"),
        ),
        (
            "substr",
            &[Row::Text(b"abc"), Row::Int(1), Row::Null],
            Row::Text(b""),
        ),
        ("substr", &[Row::Text(b"abc")], Row::Fault(CallFault::Arity)),
        (
            "substr",
            &[Row::Object, Row::Texts(&[])],
            Row::Fault(CallFault::Mistyped),
        ),
        (
            "substr",
            &[Row::Text(b"abc"), Row::Text(b"1e1"), Row::Object],
            Row::Fault(CallFault::Float),
        ),
        (
            "substr",
            &[Row::Text(b"abc"), Row::Int(i64::MIN), Row::Int(i64::MIN)],
            Row::Truth(false),
        ),
        (
            "substr",
            &[Row::Text(b"abc"), Row::Int(i64::MAX)],
            Row::Truth(false),
        ),
        (
            "strpos",
            &[Row::Text(b"abcabc"), Row::Text(b"c")],
            Row::Int(2),
        ),
        (
            "strpos",
            &[Row::Text(b"abcabc"), Row::Text(b"c"), Row::Int(3)],
            Row::Int(5),
        ),
        (
            "strpos",
            &[Row::Text(b"abc"), Row::Text(b"")],
            Row::Truth(false),
        ),
        (
            "strpos",
            &[Row::Text(b"abc"), Row::Text(b"a"), Row::Int(3)],
            Row::Truth(false),
        ),
        (
            "strpos",
            &[Row::Text(b"abc"), Row::Text(b"a"), Row::Int(4)],
            Row::Truth(false),
        ),
        (
            "strpos",
            &[Row::Text(b"abc"), Row::Text(b"a"), Row::Int(-1)],
            Row::Truth(false),
        ),
        (
            "strpos",
            &[Row::Text(b"abc"), Row::Text(b"d")],
            Row::Truth(false),
        ),
        ("intdiv", &[Row::Int(-7), Row::Int(2)], Row::Int(-3)),
        ("intdiv", &[Row::Int(7), Row::Int(-2)], Row::Int(-3)),
        (
            "intdiv",
            &[Row::Int(1), Row::Int(0)],
            Row::Fault(CallFault::Zero),
        ),
        (
            "intdiv",
            &[Row::Int(i64::MIN), Row::Int(-1)],
            Row::Fault(CallFault::Range),
        ),
        ("intdiv", &[Row::Text(b"9x"), Row::Truth(true)], Row::Int(9)),
        ("intdiv", &[Row::Int(1)], Row::Fault(CallFault::Arity)),
    ];
    assert!(rt; all_hold(rt.alloc(), &rows));
}

#[test]
fn rows_of_pieces(rt: HostRuntime) {
    let rows: [(&str, &[Row], Row); 32] = [
        (
            "str_replace",
            &[Row::Text(b"aa"), Row::Text(b"b"), Row::Text(b"aaa")],
            Row::Text(b"ba"),
        ),
        (
            "str_replace",
            &[Row::Text(b""), Row::Text(b"b"), Row::Text(b"aaa")],
            Row::Text(b"aaa"),
        ),
        (
            "str_replace",
            &[Row::Text(b"a"), Row::Text(b"aa"), Row::Text(b"bab")],
            Row::Text(b"baab"),
        ),
        (
            "str_replace",
            &[Row::Text(b"x"), Row::Text(b"y"), Row::Text(b"")],
            Row::Text(b""),
        ),
        (
            "str_replace",
            &[Row::Text(b"a"), Row::Text(b""), Row::Text(b"banana")],
            Row::Text(b"bnn"),
        ),
        (
            "str_replace",
            &[Row::Text(b"a"), Row::Text(b"b")],
            Row::Fault(CallFault::Arity),
        ),
        (
            "str_repeat",
            &[Row::Text(b"ab"), Row::Int(3)],
            Row::Text(b"ababab"),
        ),
        (
            "str_repeat",
            &[Row::Text(b"ab"), Row::Int(0)],
            Row::Text(b""),
        ),
        (
            "str_repeat",
            &[Row::Text(b"ab"), Row::Int(-1)],
            Row::Fault(CallFault::Mistyped),
        ),
        (
            "str_repeat",
            &[Row::Text(b"ab"), Row::Int(524289)],
            Row::Fault(CallFault::Size),
        ),
        (
            "str_repeat",
            &[Row::Text(b""), Row::Int(i64::MAX)],
            Row::Text(b""),
        ),
        (
            "str_repeat",
            &[Row::Text(b"ab"), Row::Int(i64::MAX)],
            Row::Fault(CallFault::Size),
        ),
        (
            "str_pad",
            &[Row::Text(b"ab"), Row::Int(5)],
            Row::Text(b"ab   "),
        ),
        (
            "str_pad",
            &[Row::Text(b"ab"), Row::Int(5), Row::Text(b"xy")],
            Row::Text(b"abxyx"),
        ),
        (
            "str_pad",
            &[Row::Text(b"ab"), Row::Int(5), Row::Text(b"xy"), Row::Int(0)],
            Row::Text(b"xyxab"),
        ),
        (
            "str_pad",
            &[Row::Text(b"ab"), Row::Int(-5)],
            Row::Text(b"ab"),
        ),
        (
            "str_pad",
            &[Row::Text(b"ab"), Row::Int(1), Row::Text(b"")],
            Row::Fault(CallFault::Mistyped),
        ),
        (
            "str_pad",
            &[Row::Text(b"ab"), Row::Int(1), Row::Text(b"x"), Row::Int(2)],
            Row::Fault(CallFault::Mistyped),
        ),
        (
            "str_pad",
            &[Row::Text(b"ab"), Row::Int(1048577)],
            Row::Fault(CallFault::Size),
        ),
        (
            "explode",
            &[Row::Text(b","), Row::Text(b"a,,b,")],
            Row::Texts(&[b"a", b"", b"b", b""]),
        ),
        (
            "explode",
            &[Row::Text(b","), Row::Text(b"")],
            Row::Texts(&[b""]),
        ),
        (
            "explode",
            &[Row::Text(b""), Row::Text(b"a")],
            Row::Truth(false),
        ),
        (
            "explode",
            &[Row::Text(b"aa"), Row::Text(b"aaa")],
            Row::Texts(&[b"", b"a"]),
        ),
        (
            "explode",
            &[Row::Text(b","), Row::Object],
            Row::Fault(CallFault::Mistyped),
        ),
        (
            "implode",
            &[Row::Text(b", "), Row::Texts(&[b"a", b"b", b"c"])],
            Row::Text(b"a, b, c"),
        ),
        (
            "implode",
            &[Row::Text(b","), Row::Texts(&[])],
            Row::Text(b""),
        ),
        (
            "implode",
            &[Row::Text(b","), Row::Texts(&[b"a"])],
            Row::Text(b"a"),
        ),
        (
            "implode",
            &[Row::Text(b","), Row::Text(b"a")],
            Row::Fault(CallFault::Mistyped),
        ),
        (
            "join",
            &[Row::Text(b""), Row::Texts(&[b"a", b"", b"b"])],
            Row::Text(b"ab"),
        ),
        (
            "join",
            &[Row::Object, Row::Object],
            Row::Fault(CallFault::Mistyped),
        ),
        ("join", &[Row::Text(b",")], Row::Fault(CallFault::Arity)),
        (
            "join",
            &[Row::Int(0), Row::Texts(&[b"a", b"b"])],
            Row::Text(b"a0b"),
        ),
    ];
    assert!(rt; all_hold(rt.alloc(), &rows));
}

#[test]
fn rows_of_escapes(rt: HostRuntime) {
    let rows: [(&str, &[Row], Row); 16] = [
        (
            "htmlspecialchars",
            &[Row::Text(b"<a b='c' d=\"e\">&")],
            Row::Text(b"&lt;a b='c' d=&quot;e&quot;&gt;&amp;"),
        ),
        (
            "htmlspecialchars",
            &[Row::Text(b"'\"<"), Row::Int(0)],
            Row::Text(b"'\"&lt;"),
        ),
        (
            "htmlspecialchars",
            &[Row::Text(b"'\""), Row::Int(2)],
            Row::Text(b"'&quot;"),
        ),
        (
            "htmlspecialchars",
            &[Row::Text(b"'\""), Row::Int(3)],
            Row::Text(b"&#039;&quot;"),
        ),
        (
            "htmlspecialchars",
            &[Row::Text(b"a"), Row::Int(1)],
            Row::Fault(CallFault::Mistyped),
        ),
        (
            "htmlspecialchars",
            &[Row::Text(b"\xff<\xc3")],
            Row::Text(b"\xff&lt;\xc3"),
        ),
        ("htmlspecialchars", &[Row::Text(b"")], Row::Text(b"")),
        (
            "htmlspecialchars",
            &[Row::Text(b"a"), Row::Int(2), Row::Int(2)],
            Row::Fault(CallFault::Arity),
        ),
        (
            "urlencode",
            &[Row::Text(b"a b-_.~*/")],
            Row::Text(b"a+b-_.%7E%2A%2F"),
        ),
        ("urlencode", &[Row::Text(b"")], Row::Text(b"")),
        ("urlencode", &[Row::Text(b"\xe4\0")], Row::Text(b"%E4%00")),
        ("urlencode", &[Row::Int(-1)], Row::Text(b"-1")),
        (
            "rawurlencode",
            &[Row::Text(b"a b-_.~*/")],
            Row::Text(b"a%20b-_.~%2A%2F"),
        ),
        ("rawurlencode", &[Row::Text(b"+")], Row::Text(b"%2B")),
        ("rawurlencode", &[Row::Text(b"\x9a")], Row::Text(b"%9A")),
        (
            "rawurlencode",
            &[Row::Texts(&[])],
            Row::Fault(CallFault::Mistyped),
        ),
    ];
    assert!(rt; all_hold(rt.alloc(), &rows));
}

#[test]
fn rows_of_formats(rt: HostRuntime) {
    let rows: [(&str, &[Row], Row); 21] = [
        (
            "sprintf",
            &[Row::Text(b"%d%%|%s|"), Row::Int(5), Row::Text(b"a")],
            Row::Text(b"5%|a|"),
        ),
        (
            "sprintf",
            &[Row::Text(b"%05d"), Row::Int(-42)],
            Row::Text(b"-0042"),
        ),
        (
            "sprintf",
            &[Row::Text(b"%5d|%-5d|"), Row::Int(-42), Row::Int(42)],
            Row::Text(b"  -42|42   |"),
        ),
        (
            "sprintf",
            &[
                Row::Text(b"%5s|%-5s|%05s"),
                Row::Text(b"ab"),
                Row::Text(b"ab"),
                Row::Text(b"ab"),
            ],
            Row::Text(b"   ab|ab   |000ab"),
        ),
        (
            "sprintf",
            &[Row::Text(b"%05s"), Row::Text(b"-a")],
            Row::Text(b"000-a"),
        ),
        (
            "sprintf",
            &[Row::Text(b"%2s"), Row::Text(b"abc")],
            Row::Text(b"abc"),
        ),
        (
            "sprintf",
            &[Row::Text(b"%s")],
            Row::Fault(CallFault::Mistyped),
        ),
        (
            "sprintf",
            &[Row::Text(b"%")],
            Row::Fault(CallFault::Mistyped),
        ),
        (
            "sprintf",
            &[Row::Text(b"%x"), Row::Int(1)],
            Row::Fault(CallFault::Mistyped),
        ),
        (
            "sprintf",
            &[Row::Text(b"%1001d"), Row::Int(1)],
            Row::Fault(CallFault::Mistyped),
        ),
        (
            "sprintf",
            &[Row::Text(b"%00d"), Row::Int(1)],
            Row::Fault(CallFault::Mistyped),
        ),
        (
            "sprintf",
            &[Row::Text(b"%-05d"), Row::Int(1)],
            Row::Fault(CallFault::Mistyped),
        ),
        (
            "sprintf",
            &[Row::Text(b"%0d|%-s"), Row::Int(7), Row::Text(b"a")],
            Row::Text(b"7|a"),
        ),
        (
            "sprintf",
            &[Row::Text(b"%d"), Row::Text(b"1.5")],
            Row::Fault(CallFault::Float),
        ),
        (
            "sprintf",
            &[Row::Text(b"%d"), Row::Object],
            Row::Fault(CallFault::Mistyped),
        ),
        (
            "sprintf",
            &[Row::Text(b"%s"), Row::Texts(&[b"a"])],
            Row::Text(b"Array"),
        ),
        ("sprintf", &[Row::Text(b"a"), Row::Int(1)], Row::Text(b"a")),
        ("sprintf", &[Row::Text(b"")], Row::Text(b"")),
        ("sprintf", &[], Row::Fault(CallFault::Arity)),
        (
            "sprintf",
            &[Row::Text(b"%d %s"), Row::Texts(&[b"a"]), Row::Null],
            Row::Text(b"1 "),
        ),
        (
            "sprintf",
            &[Row::Text(b"%020d"), Row::Int(i64::MIN)],
            Row::Text(b"-9223372036854775808"),
        ),
    ];
    assert!(rt; all_hold(rt.alloc(), &rows));
}

#[test]
fn rows_of_kinds(rt: HostRuntime) {
    let rows: [(&str, &[Row], Row); 41] = [
        ("intval", &[Row::Text(b" -3x")], Row::Int(-3)),
        ("intval", &[Row::Texts(&[b"a"])], Row::Int(1)),
        ("intval", &[Row::Text(b"1e3")], Row::Fault(CallFault::Float)),
        ("intval", &[Row::Object], Row::Fault(CallFault::Mistyped)),
        ("intval", &[Row::Null], Row::Int(0)),
        ("strval", &[Row::Int(-12)], Row::Text(b"-12")),
        ("strval", &[Row::Texts(&[])], Row::Text(b"Array")),
        ("strval", &[Row::Object], Row::Fault(CallFault::Mistyped)),
        ("strval", &[Row::Truth(false)], Row::Text(b"")),
        ("is_numeric", &[Row::Int(1)], Row::Truth(true)),
        ("is_numeric", &[Row::Text(b"1.5e3")], Row::Truth(true)),
        ("is_numeric", &[Row::Text(b"1 ")], Row::Truth(false)),
        ("is_numeric", &[Row::Null], Row::Truth(false)),
        ("is_int", &[Row::Int(1)], Row::Truth(true)),
        ("is_int", &[Row::Text(b"1")], Row::Truth(false)),
        ("is_int", &[Row::Truth(true)], Row::Truth(false)),
        ("is_int", &[], Row::Fault(CallFault::Arity)),
        ("is_string", &[Row::Text(b"")], Row::Truth(true)),
        ("is_string", &[Row::Int(1)], Row::Truth(false)),
        ("is_string", &[Row::Null], Row::Truth(false)),
        ("is_string", &[Row::Object], Row::Truth(false)),
        ("is_bool", &[Row::Truth(false)], Row::Truth(true)),
        ("is_bool", &[Row::Int(0)], Row::Truth(false)),
        ("is_bool", &[Row::Null], Row::Truth(false)),
        ("is_bool", &[Row::Texts(&[])], Row::Truth(false)),
        ("is_array", &[Row::Texts(&[])], Row::Truth(true)),
        ("is_array", &[Row::Text(b"a")], Row::Truth(false)),
        ("is_array", &[Row::Object], Row::Truth(false)),
        ("is_array", &[Row::Null], Row::Truth(false)),
        ("is_null", &[Row::Null], Row::Truth(true)),
        ("is_null", &[Row::Truth(false)], Row::Truth(false)),
        ("is_null", &[Row::Text(b"")], Row::Truth(false)),
        ("is_null", &[Row::Int(0)], Row::Truth(false)),
        ("is_object", &[Row::Object], Row::Truth(true)),
        ("is_object", &[Row::Texts(&[])], Row::Truth(false)),
        ("is_object", &[Row::Null], Row::Truth(false)),
        (
            "is_object",
            &[Row::Object, Row::Object],
            Row::Fault(CallFault::Arity),
        ),
        ("ctype_digit", &[Row::Text(b"0123")], Row::Truth(true)),
        ("ctype_digit", &[Row::Text(b"")], Row::Truth(false)),
        ("ctype_digit", &[Row::Text(b"1a")], Row::Truth(false)),
        ("ctype_digit", &[Row::Int(5)], Row::Truth(false)),
    ];
    assert!(rt; all_hold(rt.alloc(), &rows));
}

#[test]
fn other_names_are_no_calls(rt: HostRuntime) {
    assert!(rt; text_call_named("strlen") == Some(TextCall::Strlen));
    assert!(rt; text_call_named("Strlen").is_none() && text_call_named("").is_none());
    assert!(rt; text_call_named("strle").is_none() && text_call_named("count").is_none());
}
