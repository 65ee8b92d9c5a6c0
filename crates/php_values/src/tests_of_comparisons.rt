use crate::tests_of_comparisons::Made::{
    Empty, False, Int, Keyed, Null, Object, One, Swapped, Text, True, Two, Within,
};
use crate::{ArrayValue, Value, ValueFault, compare, copy_value, loose_eq, strict_eq};
use order_map::{ByteText, Key, OrderMap};
use std::alloc::{AllocError, Global};
use std::cmp::Ordering;
use std::test::Fail;

// A value of a row: `One` is a list of one text, and `Two` one of two numbers, `Swapped` its keys in the other order,
// `Keyed` has the number 1 under a text, and `Within` is a list in a list.
#[derive(Clone, Copy)]
enum Made {
    Null,
    False,
    True,
    Int(i64),
    Text(&'static [u8]),
    Empty,
    One(&'static [u8]),
    Two(i64, i64),
    Swapped(i64, i64),
    Keyed(i64),
    Within(i64),
    Object(u32),
}

#[derive(Clone, Copy, PartialEq, Eq)]
enum Told {
    Yes,
    No,
    Less,
    Equal,
    Greater,
    Float,
    Kind,
    Other,
}

const MAX: &[u8] = b"9223372036854775807";

const MIN: &[u8] = b"-9223372036854775808";

const PAST: &[u8] = b"9223372036854775808";

fn text(alloc: Global, bytes: &[u8]) -> Result<Value, AllocError> {
    Ok(Value::Bytes(ByteText::from_slice(alloc, bytes)?))
}

fn list(alloc: Global, map: OrderMap<Value>) -> Result<Value, AllocError> {
    Ok(Value::List(ArrayValue::new(alloc, map)?))
}

fn one(alloc: Global, key: Key, value: Value) -> Result<Value, AllocError> {
    let mut map = OrderMap::new(alloc);
    let _old = map.set(key, value)?;
    list(alloc, map)
}

fn two(alloc: Global, first: i64, m: i64, second: i64, n: i64) -> Result<Value, AllocError> {
    let mut map = OrderMap::new(alloc);
    let _old = map.set(Key::Int(first), Value::Int(m))?;
    let _old = map.set(Key::Int(second), Value::Int(n))?;
    list(alloc, map)
}

fn make(alloc: Global, made: Made) -> Result<Value, AllocError> {
    match made {
        Null => Ok(Value::Null),
        False => Ok(Value::Bool(false)),
        True => Ok(Value::Bool(true)),
        Int(n) => Ok(Value::Int(n)),
        Text(bytes) => text(alloc, bytes),
        Empty => list(alloc, OrderMap::new(alloc)),
        One(bytes) => one(alloc, Key::Int(0), text(alloc, bytes)?),
        Two(m, n) => two(alloc, 0, m, 1, n),
        Swapped(m, n) => two(alloc, 1, n, 0, m),
        Keyed(n) => one(
            alloc,
            Key::Text(ByteText::from_slice(alloc, b"k")?),
            Value::Int(n),
        ),
        Within(n) => {
            let inner = one(alloc, Key::Int(0), Value::Int(n))?;
            one(alloc, Key::Int(0), inner)
        }
        Object(n) => Ok(Value::Object(n)),
    }
}

fn fault(fault: ValueFault) -> Told {
    match fault {
        ValueFault::Float => Told::Float,
        ValueFault::Kind => Told::Kind,
        _ => Told::Other,
    }
}

fn equality(alloc: Global, a: Made, b: Made) -> Result<Told, AllocError> {
    match loose_eq(alloc, &make(alloc, a)?, &make(alloc, b)?) {
        Ok(true) => Ok(Told::Yes),
        Ok(false) => Ok(Told::No),
        Err(e) => Ok(fault(e)),
    }
}

fn order(alloc: Global, a: Made, b: Made) -> Result<Told, AllocError> {
    match compare(alloc, &make(alloc, a)?, &make(alloc, b)?) {
        Ok(Ordering::Less) => Ok(Told::Less),
        Ok(Ordering::Equal) => Ok(Told::Equal),
        Ok(Ordering::Greater) => Ok(Told::Greater),
        Err(e) => Ok(fault(e)),
    }
}

fn turned(told: Told) -> Told {
    match told {
        Told::Less => Told::Greater,
        Told::Greater => Told::Less,
        other => other,
    }
}

#[test]
fn equal_values(rt: HostRuntime) -> Result<(), Fail> {
    let alloc = rt.alloc();
    let rows = [
        (Null, Null),
        (Null, False),
        (Null, Int(0)),
        (Null, Text(b"")),
        (Null, Empty),
        (False, False),
        (False, Int(0)),
        (False, Text(b"")),
        (False, Text(b"0")),
        (False, Empty),
        (True, True),
        (True, Int(1)),
        (True, Int(-1)),
        (True, Int(i64::MIN)),
        (True, Text(b"a")),
        (True, Text(b"00")),
        (True, Text(b"0.0")),
        (True, Text(b" ")),
        (True, One(b"")),
        (True, Object(1)),
        (Int(0), Int(0)),
        (Int(i64::MIN), Int(i64::MIN)),
        (Int(0), Text(b"")),
        (Int(0), Text(b"a")),
        (Int(0), Text(b"0")),
        (Int(0), Text(b"-0")),
        (Int(0), Text(b"-")),
        (Int(0), Text(b"0x1A")),
        (Int(1), Text(b"1")),
        (Int(1), Text(b" 1")),
        (Int(1), Text(b"1 ")),
        (Int(1), Text(b"1x")),
        (Int(1), Text(b"01")),
        (Int(1), Text(b"+1")),
        (Int(1), Text(b"1e")),
        (Int(-1), Text(b"-1")),
        (Int(12), Text(b"\t\n\r\x0b\x0c12")),
        (Int(i64::MAX), Text(MAX)),
        (Int(i64::MIN), Text(MIN)),
        (Text(b""), Text(b"")),
        (Text(b"a"), Text(b"a")),
        (Text(b"1"), Text(b"01")),
        (Text(b"1"), Text(b" 1")),
        (Text(b"0"), Text(b"-0")),
        (Text(b"1e1"), Text(b"1e1")),
        (Text(b"1.5"), Text(b"1.5")),
        (Text(PAST), Text(PAST)),
        (Text(MAX), Text(b"09223372036854775807")),
        (Empty, Empty),
        (One(b"1"), One(b"01")),
        (Two(1, 2), Two(1, 2)),
        (Two(1, 2), Swapped(1, 2)),
        (Keyed(3), Keyed(3)),
        (Within(4), Within(4)),
        (Object(7), Object(7)),
    ];
    for (a, b) in rows {
        assert!(rt; equality(alloc, a, b)? == Told::Yes);
        assert!(rt; equality(alloc, b, a)? == Told::Yes);
    }
    Ok(())
}

#[test]
fn other_values(rt: HostRuntime) -> Result<(), Fail> {
    let alloc = rt.alloc();
    let rows = [
        (Null, True),
        (Null, Int(1)),
        (Null, Text(b"0")),
        (Null, Text(b" ")),
        (Null, One(b"1")),
        (Null, Object(1)),
        (False, True),
        (False, Int(1)),
        (False, Text(b"00")),
        (False, Text(b"0.0")),
        (False, One(b"")),
        (False, Object(1)),
        (True, Int(0)),
        (True, Text(b"")),
        (True, Text(b"0")),
        (True, Empty),
        (Int(1), Int(2)),
        (Int(i64::MAX), Int(i64::MIN)),
        (Int(1), Text(b"")),
        (Int(1), Text(b"-1")),
        (Int(26), Text(b"0x1A")),
        (Int(10), Text(b"1e")),
        (Int(0), Empty),
        (Int(1), One(b"1")),
        (Text(b""), Text(b"0")),
        (Text(b"a"), Text(b"A")),
        (Text(b"1"), Text(b"1 ")),
        (Text(b"1"), Text(b"1x")),
        (Text(b"abc"), Text(b"0")),
        (Text(b"0x1A"), Text(b"26")),
        (Text(b" "), Text(b"")),
        (Text(b""), Empty),
        (Text(b"Array"), Empty),
        (Text(b"1"), One(b"1")),
        (Empty, One(b"")),
        (Two(1, 2), Two(2, 1)),
        (Two(1, 1), Two(1, 2)),
        (One(b"1"), Keyed(1)),
        (Within(1), Within(2)),
        (One(b"1"), Within(1)),
        (Empty, Object(1)),
    ];
    for (a, b) in rows {
        assert!(rt; equality(alloc, a, b)? == Told::No);
        assert!(rt; equality(alloc, b, a)? == Told::No);
    }
    Ok(())
}

#[test]
fn refused_equalities(rt: HostRuntime) -> Result<(), Fail> {
    let alloc = rt.alloc();
    let rows = [
        (Int(1), Text(b"1e1"), Told::Float),
        (Int(1), Text(b"1."), Told::Float),
        (Int(0), Text(b".5"), Told::Float),
        (Int(1), Text(PAST), Told::Float),
        (Text(b"1e1"), Text(b"10"), Told::Float),
        (Text(b"1.5"), Text(b"1.50"), Told::Float),
        (One(b"1e1"), One(b"10"), Told::Float),
        (Int(1), Object(1), Told::Kind),
        (Text(b"a"), Object(1), Told::Kind),
        (Object(1), Object(2), Told::Kind),
    ];
    for (a, b, told) in rows {
        assert!(rt; equality(alloc, a, b)? == told);
        assert!(rt; equality(alloc, b, a)? == told);
    }
    Ok(())
}

#[test]
fn orders(rt: HostRuntime) -> Result<(), Fail> {
    let alloc = rt.alloc();
    let rows = [
        (Null, Null, Told::Equal),
        (Null, False, Told::Equal),
        (Null, True, Told::Less),
        (Null, Int(0), Told::Equal),
        (Null, Int(-1), Told::Less),
        (Null, Text(b""), Told::Equal),
        (Null, Text(b"0"), Told::Less),
        (Null, Empty, Told::Equal),
        (Null, One(b""), Told::Less),
        (Null, Object(1), Told::Less),
        (False, True, Told::Less),
        (False, Int(-5), Told::Less),
        (False, Text(b"0"), Told::Equal),
        (False, Empty, Told::Equal),
        (False, One(b""), Told::Less),
        (False, Object(1), Told::Less),
        (True, Int(5), Told::Equal),
        (True, Text(b""), Told::Greater),
        (True, Text(b"a"), Told::Equal),
        (True, Empty, Told::Greater),
        (True, Object(1), Told::Equal),
        (Int(1), Int(2), Told::Less),
        (Int(i64::MIN), Int(i64::MAX), Told::Less),
        (Int(-1), Int(0), Told::Less),
        (Int(5), Int(5), Told::Equal),
        (Int(1), Text(b"1"), Told::Equal),
        (Int(1), Text(b"2"), Told::Less),
        (Int(10), Text(b"9"), Told::Greater),
        (Int(0), Text(b"a"), Told::Equal),
        (Int(-1), Text(b""), Told::Less),
        (Int(1), Text(b" 1x"), Told::Equal),
        (Int(i64::MIN), Text(MIN), Told::Equal),
        (Int(1), Text(b"1.0"), Told::Float),
        (Int(5), Text(b"1e3"), Told::Float),
        (Int(i64::MAX), Text(PAST), Told::Float),
        (Text(b"a"), Text(b"b"), Told::Less),
        (Text(b"a"), Text(b"A"), Told::Greater),
        (Text(b""), Text(b"a"), Told::Less),
        (Text(b"ab"), Text(b"abc"), Told::Less),
        (Text(b"10"), Text(b"9"), Told::Greater),
        (Text(b"10"), Text(b"9a"), Told::Less),
        (Text(b"1"), Text(b"01"), Told::Equal),
        (Text(b"1"), Text(b"1 "), Told::Less),
        (Text(b" 1"), Text(b"1"), Told::Equal),
        (Text(b"-1"), Text(b"1"), Told::Less),
        (Text(b"\xff"), Text(b"a"), Told::Greater),
        (Text(b"1e1"), Text(b"10"), Told::Float),
        (Text(b"1e1"), Text(b"1e1"), Told::Equal),
        (Int(1), Empty, Told::Kind),
        (Text(b"a"), One(b"a"), Told::Kind),
        (Int(1), Object(1), Told::Kind),
        (Text(b"a"), Object(1), Told::Kind),
        (Empty, Object(1), Told::Kind),
        (Object(1), Object(1), Told::Kind),
        (Empty, Empty, Told::Equal),
        (Empty, One(b"a"), Told::Less),
        (One(b"z"), Two(0, 0), Told::Less),
        (One(b"a"), One(b"b"), Told::Less),
        (One(b"1"), One(b"01"), Told::Equal),
        (Two(1, 2), Swapped(1, 2), Told::Equal),
        (Two(1, 2), Two(1, 3), Told::Less),
        (One(b"1"), Keyed(1), Told::Kind),
        (One(b"1e1"), One(b"10"), Told::Float),
        (Within(1), Within(2), Told::Less),
        (Within(2), Within(2), Told::Equal),
    ];
    for (a, b, told) in rows {
        assert!(rt; order(alloc, a, b)? == told);
        assert!(rt; order(alloc, b, a)? == turned(told));
    }
    Ok(())
}

#[test]
fn identities(rt: HostRuntime) -> Result<(), Fail> {
    let alloc = rt.alloc();
    let rows = [
        (Null, Null, true),
        (False, False, true),
        (True, False, false),
        (Null, False, false),
        (Null, Empty, false),
        (Int(1), Int(1), true),
        (Int(1), Int(-1), false),
        (Int(1), Text(b"1"), false),
        (True, Int(1), false),
        (Text(b"1"), Text(b"1"), true),
        (Text(b"1"), Text(b"01"), false),
        (Text(b""), Null, false),
        (Empty, Empty, true),
        (Empty, One(b""), false),
        (One(b"1"), One(b"1"), true),
        (One(b"1"), One(b"01"), false),
        (Two(1, 2), Two(1, 2), true),
        (Two(1, 2), Swapped(1, 2), false),
        (Keyed(1), Keyed(1), true),
        (One(b"1"), Keyed(1), false),
        (Within(1), Within(1), true),
        (Within(1), Within(2), false),
        (Object(1), Object(1), true),
        (Object(1), Object(2), false),
        (Object(1), Int(1), false),
    ];
    for (a, b, same) in rows {
        assert!(rt; strict_eq(alloc, &make(alloc, a)?, &make(alloc, b)?)? == same);
        assert!(rt; strict_eq(alloc, &make(alloc, b)?, &make(alloc, a)?)? == same);
    }
    Ok(())
}

#[test]
fn a_million_levels(rt: HostRuntime) -> Result<(), Fail> {
    let alloc = rt.alloc();
    let mut value = Value::Int(1);
    for _ in 0..1_000_000 {
        value = one(alloc, Key::Int(0), value)?;
    }
    let copy = copy_value(&value)?;
    assert!(rt; matches!(loose_eq(alloc, &value, &copy), Ok(true)));
    assert!(rt; matches!(compare(alloc, &value, &copy), Ok(Ordering::Equal)));
    assert!(rt; strict_eq(alloc, &value, &value)?);
    drop(copy);
    drop(value);
    Ok(())
}

// An array in which the one before stands twice, and so on down to the empty array.
fn doubled(alloc: Global, levels: u32) -> Result<Value, AllocError> {
    let mut value = list(alloc, OrderMap::new(alloc))?;
    for _ in 0..levels {
        let mut map = OrderMap::new(alloc);
        let _old = map.set(Key::Int(0), copy_value(&value)?)?;
        let _old = map.set(Key::Int(1), value)?;
        value = list(alloc, map)?;
    }
    Ok(value)
}

#[test]
fn shared_parts(rt: HostRuntime) -> Result<(), Fail> {
    let alloc = rt.alloc();
    let few = doubled(alloc, 10)?;
    assert!(rt; matches!(loose_eq(alloc, &few, &doubled(alloc, 10)?), Ok(true)));
    let many = doubled(alloc, 100)?;
    let other = doubled(alloc, 100)?;
    assert!(rt; loose_eq(alloc, &many, &other) == Err(ValueFault::Memory));
    assert!(rt; compare(alloc, &many, &other) == Err(ValueFault::Memory));
    assert!(rt; strict_eq(alloc, &many, &other).is_err());
    Ok(())
}
