use crate::{
    ArithOp, ArrayValue, Number, Value, ValueFault, arith, copied, copy_value, is_numeric, key_of,
    leading_number, normal_number, to_int, to_text, truth,
};
use order_map::{ByteText, Key, OrderMap};
use std::alloc::Global;
use std::test::Fail;

fn text(alloc: Global, bytes: &[u8]) -> Result<Value, Fail> {
    Ok(Value::Bytes(ByteText::from_slice(alloc, bytes)?))
}

fn list(alloc: Global, count: u32) -> Result<Value, Fail> {
    let mut map = OrderMap::new(alloc);
    for n in 0..count {
        let _ = map.set(Key::Int(i64::from(n)), Value::Null)?;
    }
    Ok(Value::List(ArrayValue::new(alloc, map)?))
}

#[test]
fn leading_numbers(rt: HostRuntime) {
    let whole: [(&[u8], i64); 14] = [
        (b"0", 0),
        (b"12", 12),
        (b" \t\n\r\x0b\x0c12", 12),
        (b"-7", -7),
        (b"+7", 7),
        (b"007", 7),
        (b"12abc", 12),
        (b"0x1A", 0),
        (b"1 ", 1),
        (b"1e", 1),
        (b"1e+", 1),
        (b"9223372036854775807", i64::MAX),
        (b"-9223372036854775808", i64::MIN),
        (b"-0", 0),
    ];
    for (bytes, n) in whole {
        assert!(rt; leading_number(bytes) == Number::Whole(n));
    }
    let forms: [&[u8]; 9] = [
        b"1.",
        b".5",
        b"-.5",
        b"1e1",
        b"1E-2",
        b" 1.5x",
        b"1.e3",
        b"9223372036854775808",
        b"-9223372036854775809",
    ];
    for bytes in forms {
        assert!(rt; leading_number(bytes) == Number::FloatForm);
    }
    let none: [&[u8]; 8] = [b"", b" ", b"-", b"- 5", b".", b"e1", b"a1", b"--1"];
    for bytes in none {
        assert!(rt; leading_number(bytes) == Number::Missing);
    }
}

#[test]
fn numeric_texts(rt: HostRuntime) {
    let yes: [&[u8]; 9] = [
        b"0",
        b" 1",
        b"-1",
        b"1.",
        b".5",
        b"1e1",
        b"1.5e-3",
        b"007",
        b"99999999999999999999",
    ];
    for bytes in yes {
        assert!(rt; is_numeric(bytes));
    }
    let no: [&[u8]; 9] = [
        b"", b" ", b"1 ", b"1x", b"0x1A", b"1e", b".", b"-", b"1.5.5",
    ];
    for bytes in no {
        assert!(rt; !is_numeric(bytes));
    }
}

#[test]
fn normal_numbers(rt: HostRuntime) {
    let yes: [(&[u8], i64); 5] = [
        (b"0", 0),
        (b"8", 8),
        (b"-8", -8),
        (b"9223372036854775807", i64::MAX),
        (b"-9223372036854775808", i64::MIN),
    ];
    for (bytes, n) in yes {
        assert!(rt; normal_number(bytes) == Some(n));
    }
    let no: [&[u8]; 11] = [
        b"",
        b"08",
        b"00",
        b"-0",
        b"+1",
        b" 1",
        b"1 ",
        b"1.0",
        b"-",
        b"9223372036854775808",
        b"-9223372036854775809",
    ];
    for bytes in no {
        assert!(rt; normal_number(bytes).is_none());
    }
}

#[test]
fn truths(rt: HostRuntime) -> Result<(), Fail> {
    let alloc = rt.alloc();
    assert!(rt; !truth(&Value::Null) && !truth(&Value::Bool(false)) && !truth(&Value::Int(0)));
    assert!(rt; truth(&Value::Bool(true)) && truth(&Value::Int(-1)) && truth(&Value::Object(0)));
    assert!(rt; !truth(&text(alloc, b"")?) && !truth(&text(alloc, b"0")?));
    assert!(rt;
        truth(&text(alloc, b"00")?) && truth(&text(alloc, b"0.0")?) && truth(&text(alloc, b" ")?)
    );
    assert!(rt; !truth(&list(alloc, 0)?) && truth(&list(alloc, 2)?));
    Ok(())
}

#[test]
fn texts(rt: HostRuntime) -> Result<(), Fail> {
    let alloc = rt.alloc();
    let same =
        |value: &Value, bytes: &[u8]| matches!(to_text(alloc, value), Ok(t) if t.as_slice() == bytes);
    assert!(rt;
        same(&Value::Null, b"") && same(&Value::Bool(false), b"") && same(&Value::Bool(true), b"1")
    );
    assert!(rt;
        same(&Value::Int(-12), b"-12") && same(&Value::Int(i64::MIN), b"-9223372036854775808")
    );
    assert!(rt; same(&text(alloc, b"a\0b")?, b"a\0b") && same(&list(alloc, 0)?, b"Array"));
    assert!(rt; matches!(to_text(alloc, &Value::Object(3)), Err(ValueFault::Kind)));
    Ok(())
}

#[test]
fn numbers(rt: HostRuntime) -> Result<(), Fail> {
    let alloc = rt.alloc();
    assert!(rt;
        matches!(to_int(&Value::Null), Ok(0)) && matches!(to_int(&Value::Bool(true)), Ok(1))
    );
    assert!(rt; matches!(to_int(&Value::Int(-5)), Ok(-5)));
    assert!(rt; matches!(to_int(&text(alloc, b"a1")?), Ok(0)));
    assert!(rt; matches!(to_int(&text(alloc, b" -3x")?), Ok(-3)));
    assert!(rt; matches!(to_int(&text(alloc, b"1e1")?), Err(ValueFault::Float)));
    assert!(rt;
        matches!(to_int(&list(alloc, 0)?), Ok(0)) && matches!(to_int(&list(alloc, 3)?), Ok(1))
    );
    assert!(rt; matches!(to_int(&Value::Object(1)), Err(ValueFault::Kind)));
    Ok(())
}

#[test]
fn keys(rt: HostRuntime) -> Result<(), Fail> {
    let alloc = rt.alloc();
    assert!(rt; matches!(key_of(alloc, &text(alloc, b"8")?), Ok(Key::Int(8))));
    assert!(rt;
        matches!(key_of(alloc, &text(alloc, b"08")?), Ok(Key::Text(t)) if t.as_slice() == b"08".as_slice())
    );
    assert!(rt; matches!(key_of(alloc, &Value::Bool(true)), Ok(Key::Int(1))));
    assert!(rt; matches!(key_of(alloc, &Value::Int(-4)), Ok(Key::Int(-4))));
    assert!(rt; matches!(key_of(alloc, &Value::Null), Ok(Key::Text(t)) if t.is_empty()));
    assert!(rt; matches!(key_of(alloc, &list(alloc, 1)?), Err(ValueFault::Kind)));
    assert!(rt; matches!(key_of(alloc, &Value::Object(1)), Err(ValueFault::Kind)));
    Ok(())
}

#[test]
fn copies_are_their_own(rt: HostRuntime) -> Result<(), Fail> {
    let alloc = rt.alloc();
    let value = list(alloc, 3)?;
    let copy = copy_value(&value)?;
    match (&value, &copy) {
        (Value::List(a), Value::List(b)) => {
            let mut own = copied(a.map.as_ref())?;
            assert!(rt; own.pop().is_some());
            assert!(rt; own.len() == 2 && b.map.as_ref().len() == 3 && b.has_pairs());
        }
        _ => assert!(rt; false),
    }
    Ok(())
}

fn number_of(alloc: Global, op: ArithOp, a: i64, b: i64) -> Result<i64, ValueFault> {
    match arith(alloc, op, &Value::Int(a), &Value::Int(b))? {
        Value::Int(n) => Ok(n),
        _ => Err(ValueFault::Kind),
    }
}

#[test]
fn whole_numbers_are_exact(rt: HostRuntime) {
    let alloc = rt.alloc();
    let exact = [
        (ArithOp::Add, 2, 3, 5),
        (ArithOp::Subtract, 2, 3, -1),
        (ArithOp::Multiply, -4, 3, -12),
        (ArithOp::Divide, 6, -3, -2),
        (ArithOp::Divide, 7, -1, -7),
        (ArithOp::Remainder, 7, -3, 1),
        (ArithOp::Remainder, -7, 3, -1),
        (ArithOp::Remainder, i64::MIN, -1, 0),
    ];
    for (op, a, b, n) in exact {
        assert!(rt; number_of(alloc, op, a, b) == Ok(n));
    }
    let floats = [
        (ArithOp::Add, i64::MAX, 1),
        (ArithOp::Subtract, i64::MIN, 1),
        (ArithOp::Multiply, i64::MAX, 2),
        (ArithOp::Divide, 7, 2),
        (ArithOp::Divide, 7, 0),
        (ArithOp::Divide, i64::MIN, -1),
    ];
    for (op, a, b) in floats {
        assert!(rt; number_of(alloc, op, a, b) == Err(ValueFault::Float));
    }
    assert!(rt; number_of(alloc, ArithOp::Remainder, 7, 0) == Err(ValueFault::Zero));
}

fn is_text(value: &Value, bytes: &[u8]) -> bool {
    match value {
        Value::Bytes(t) => t.as_slice() == bytes,
        _ => false,
    }
}

fn count_of(value: &Value) -> usize {
    match value {
        Value::List(array) => array.map.as_ref().len(),
        _ => 0,
    }
}

#[test]
fn sums_of_texts_and_arrays(rt: HostRuntime) -> Result<(), Fail> {
    let alloc = rt.alloc();
    let joined = arith(alloc, ArithOp::Join, &text(alloc, b"a")?, &Value::Int(1))?;
    assert!(rt; is_text(&joined, b"a1"));
    let sum = arith(alloc, ArithOp::Add, &text(alloc, b"a1")?, &Value::Int(2))?;
    assert!(rt; matches!(sum, Value::Int(2)));
    let both = arith(alloc, ArithOp::Add, &list(alloc, 2)?, &list(alloc, 3)?)?;
    assert!(rt; count_of(&both) == 3);
    let mixed = arith(alloc, ArithOp::Add, &list(alloc, 2)?, &Value::Int(1));
    assert!(rt; mixed.is_err());
    Ok(())
}
