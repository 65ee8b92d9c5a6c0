use crate::{
    Session, SessionId, SessionState, SessionValue, SlotValue, cookie_after, from_array, id_text,
    is_live, live_session, read_id, run_id, size_of_session, slot_after, to_array,
};
use order_map::{ByteText, Key, OrderMap};
use php_values::{ArrayValue, Value, strict_eq};
use std::alloc::Global;
use std::test::Fail;

fn key(alloc: Global, bytes: &[u8]) -> Result<Key, Fail> {
    Ok(Key::Text(ByteText::from_slice(alloc, bytes)?))
}

fn text(alloc: Global, bytes: &[u8]) -> Result<Value, Fail> {
    Ok(Value::Bytes(ByteText::from_slice(alloc, bytes)?))
}

fn list(alloc: Global, map: OrderMap<Value>) -> Result<Value, Fail> {
    Ok(Value::List(ArrayValue::new(alloc, map)?))
}

/// A text of some length at the key `t`.
fn with_text(alloc: Global, length: usize) -> Result<ArrayValue, Fail> {
    let mut bytes = Vec::new(alloc);
    for _ in 0..length {
        bytes.push(b'x')?;
    }
    let mut map = OrderMap::new(alloc);
    let _ = map.set(
        key(alloc, b"t")?,
        Value::Bytes(ByteText::from_vec(alloc, bytes)?),
    )?;
    Ok(ArrayValue::new(alloc, map)?)
}

/// A pair of each kind, and a list in a list.
fn mixed(alloc: Global) -> Result<ArrayValue, Fail> {
    let mut inner = OrderMap::new(alloc);
    let _ = inner.append(Value::Int(-5))?;
    let _ = inner.append(Value::Object(7))?;
    inner.raise_next(1 << 63);
    let mut middle = OrderMap::new(alloc);
    let _ = middle.set(key(alloc, b"user")?, text(alloc, b"inside")?)?;
    let _ = middle.append(list(alloc, inner)?)?;
    let _ = middle.append(list(alloc, OrderMap::new(alloc))?)?;
    middle.raise_next(9);
    let mut map = OrderMap::new(alloc);
    let _ = map.set(key(alloc, b"n")?, Value::Null)?;
    let _ = map.set(Key::Int(3), Value::Bool(true))?;
    let _ = map.set(key(alloc, b"list")?, list(alloc, middle)?)?;
    let _ = map.set(key(alloc, b"user")?, text(alloc, b"anna")?)?;
    let _ = map.set(Key::Int(-2), Value::Object(1))?;
    Ok(ArrayValue::new(alloc, map)?)
}

/// A value of so many lists, each inside the next.
fn nested(alloc: Global, depth: usize) -> Result<ArrayValue, Fail> {
    let mut array = ArrayValue::new(alloc, OrderMap::new(alloc))?;
    for _ in 0..depth {
        let mut map = OrderMap::new(alloc);
        let _ = map.append(Value::List(array))?;
        array = ArrayValue::new(alloc, map)?;
    }
    Ok(array)
}

fn list_at<'a>(map: &'a OrderMap<Value>, key: &Key) -> Option<&'a OrderMap<Value>> {
    match map.get(key) {
        Some(Value::List(array)) => Some(array.map.as_ref()),
        _ => None,
    }
}

fn is_held(slot: &SlotValue, draw: u128, last: u64, born: u32) -> bool {
    match slot {
        SlotValue::Held(session) => {
            session.draw == draw && session.last == last && session.born == born
        }
        SlotValue::Free => false,
    }
}

/// A value at the limit of what is kept, or above it.
fn sized(alloc: Global, size: usize) -> Result<SessionState, Fail> {
    let array = with_text(alloc, size.saturating_sub(16))?;
    Ok(SessionState::Set(from_array(alloc, &array)?))
}

fn held(value: SessionValue, draw: u128, last: u64, born: u32) -> SlotValue {
    SlotValue::Held(Session {
        draw,
        last,
        born,
        value,
    })
}

#[test]
fn texts_of_ids(rt: HostRuntime) -> Result<(), Fail> {
    let alloc = rt.alloc();
    let cases: [(u8, u128, &str); 4] = [
        (0, 1, "0000000000000000000000000000000001"),
        (255, u128::MAX, "ffffffffffffffffffffffffffffffffff"),
        (
            10,
            0x0123_4567_89ab_cdef_0011_2233_4455_6677,
            "0a0123456789abcdef0011223344556677",
        ),
        (16, 0, "1000000000000000000000000000000000"),
    ];
    for (slot, draw, expected) in cases {
        let id = SessionId { slot, draw };
        let text = id_text(alloc, &id)?;
        assert!(rt; text.as_str() == expected);
        assert!(rt; read_id(expected.as_bytes()) == Some(id));
    }
    Ok(())
}

#[test]
fn texts_that_name_no_id(rt: HostRuntime) {
    let cases: [&[u8]; 8] = [
        b"",
        b"0",
        b"000000000000000000000000000000000",
        b"00000000000000000000000000000000000",
        b"0A00000000000000000000000000000001",
        b"0g00000000000000000000000000000001",
        b" 000000000000000000000000000000001",
        b"000000000000000000000000000000000\n",
    ];
    for text in cases {
        assert!(rt; read_id(text).is_none());
    }
}

#[test]
fn sessions_expire_exactly(rt: HostRuntime) -> Result<(), Fail> {
    let alloc = rt.alloc();
    let slot = held(SessionValue::new(alloc), 1, 100, 0);
    let moments = [
        (0, true),
        (100, true),
        (1539, true),
        (1540, true),
        (1541, false),
        (9_999_999_999, false),
    ];
    for (moment, expected) in moments {
        assert!(rt; is_live(&slot, moment) == expected);
    }
    assert!(rt; !is_live(&SlotValue::Free, 0));
    assert!(rt; live_session(&slot, 1540).is_some());
    Ok(())
}

#[test]
fn sizes(rt: HostRuntime) -> Result<(), Fail> {
    let alloc = rt.alloc();
    assert!(rt; size_of_session(&SessionValue::new(alloc)) == 5);
    // 5, the key `n` with null, the key 3 with a truth value, the key `list` with 5 and: the key `user` with 11 bytes,
    // the key 0 with a list of two numbers under numbers (one of them null now), the key 1 with no pairs; `user`; -2
    let inner = 5 + (9 + 9) + (9 + 1);
    let middle = 5 + (9 + 11) + (9 + inner) + (9 + 5);
    let whole = 5 + (6 + 1) + (9 + 1) + (9 + middle) + (9 + 9) + (9 + 1);
    assert!(rt; size_of_session(&from_array(alloc, &mixed(alloc)?)?) == whole);
    for length in [65_520, 65_521] {
        let value = from_array(alloc, &with_text(alloc, length)?)?;
        assert!(rt; size_of_session(&value) == length as u64 + 16);
    }
    Ok(())
}

#[test]
fn arrays_are_kept_and_come_back(rt: HostRuntime) -> Result<(), Fail> {
    let alloc = rt.alloc();
    let value = from_array(alloc, &mixed(alloc)?)?;
    let back = to_array(alloc, &value)?;
    // the objects are null, so a second round changes nothing
    let again = to_array(alloc, &from_array(alloc, &back)?)?;
    assert!(rt; back.map.as_ref().next_key() == Some(4));
    let middle = list_at(back.map.as_ref(), &key(alloc, b"list")?);
    assert!(rt; middle.and_then(OrderMap::next_key) == Some(9));
    let inner = middle.and_then(|map| list_at(map, &Key::Int(0)));
    assert!(rt; inner.is_some_and(|map| map.next_key().is_none() && map.len() == 2));
    assert!(rt; matches!(back.map.as_ref().get(&Key::Int(-2)), Some(Value::Null)));
    assert!(rt; strict_eq(alloc, &Value::List(back), &Value::List(again))?);
    Ok(())
}

#[test]
fn texts_are_sought_in_the_outermost_list(rt: HostRuntime) -> Result<(), Fail> {
    let alloc = rt.alloc();
    let value = from_array(alloc, &mixed(alloc)?)?;
    assert!(rt; value.text_at(b"user") == Some(b"anna".as_slice()));
    for key in [b"n".as_slice(), b"list", b"3", b"", b"users"] {
        assert!(rt; value.text_at(key).is_none());
    }
    Ok(())
}

#[test]
fn values_nest_deeply(rt: HostRuntime) -> Result<(), Fail> {
    let alloc = rt.alloc();
    let array = nested(alloc, 30_000)?;
    let value = from_array(alloc, &array)?;
    assert!(rt; size_of_session(&value) == 5 + 30_000 * 14);
    assert!(rt; value.text_at(b"user").is_none());
    let back = to_array(alloc, &value)?;
    assert!(rt; strict_eq(alloc, &Value::List(array), &Value::List(back))?);
    Ok(())
}

#[test]
fn a_run_leaves_its_slot(rt: HostRuntime) -> Result<(), Fail> {
    let alloc = rt.alloc();
    let slot = held(SessionValue::new(alloc), 5, 100, 2);
    let slot = slot_after(slot, sized(alloc, 65_536)?, 1540, 9, 4);
    assert!(rt; is_held(&slot, 5, 1540, 2));
    // one second too late: a new session
    let slot = slot_after(slot, sized(alloc, 65_536)?, 2981, 9, 4);
    assert!(rt; is_held(&slot, 9, 2981, 4));
    let slot = slot_after(slot, SessionState::Untouched, 2982, 10, 5);
    assert!(rt; is_held(&slot, 9, 2981, 4));
    let slot = slot_after(slot, sized(alloc, 65_537)?, 2982, 10, 5);
    assert!(rt; is_held(&slot, 9, 2981, 4));
    let slot = slot_after(slot, SessionState::Ended, 2982, 10, 5);
    assert!(rt; !is_held(&slot, 9, 2981, 4) && !is_live(&slot, 2982));
    Ok(())
}

#[test]
fn cookies_are_told_of_new_sessions(rt: HostRuntime) -> Result<(), Fail> {
    let alloc = rt.alloc();
    let live = held(SessionValue::new(alloc), 5, 100, 0);
    let free = SlotValue::Free;
    let set = SessionState::Set(SessionValue::new(alloc));
    let new = SessionId { slot: 3, draw: 9 };
    let found = SessionId { slot: 3, draw: 5 };
    assert!(rt; cookie_after(3, &free, &set, 0, 9) == Some(new));
    assert!(rt; cookie_after(3, &live, &set, 1541, 9) == Some(new));
    assert!(rt; cookie_after(3, &live, &set, 1540, 9).is_none());
    assert!(rt; cookie_after(3, &free, &SessionState::Untouched, 0, 9).is_none());
    assert!(rt; cookie_after(3, &free, &SessionState::Ended, 0, 9).is_none());
    assert!(rt; cookie_after(3, &free, &sized(alloc, 65_537)?, 0, 9).is_none());
    assert!(rt; run_id(3, &live, 1540, 9) == found);
    assert!(rt; run_id(3, &live, 1541, 9) == new);
    Ok(())
}

#[test]
fn one_session_and_the_next(rt: HostRuntime) -> Result<(), Fail> {
    let alloc = rt.alloc();
    // at 0 a new session, at 1440 the same, at 2881 another one
    let requests = [(0, 1, 1, true), (1440, 0, 1, false), (2881, 2, 2, true)];
    let mut slot = SlotValue::Free;
    for (moment, drawn, draw, told) in requests {
        let state = sized(alloc, 16)?;
        let id = SessionId { slot: 0, draw };
        let cookie = cookie_after(0, &slot, &state, moment, drawn);
        assert!(rt; run_id(0, &slot, moment, drawn) == id);
        assert!(rt; cookie == if told { Some(id) } else { None });
        slot = slot_after(slot, state, moment, drawn, 0);
        assert!(rt; is_held(&slot, draw, moment, 0));
    }
    Ok(())
}
