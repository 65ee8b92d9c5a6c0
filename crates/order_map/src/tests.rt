mod sequences;

use crate::{AppendFault, ByteText, Key, OrderMap};
use std::alloc::Global;
use std::process::Abort;
use std::test::Fail;

fn text(alloc: Global, bytes: &[u8]) -> Result<Key, Fail> {
    Ok(Key::Text(ByteText::from_slice(alloc, bytes)?))
}

// The keys in order, each with its value, as a text.
fn shown(alloc: Global, map: &OrderMap<u32>) -> Result<String, Fail> {
    let mut out = String::new(alloc);
    let mut place = map.first();
    for _number in 0..map.len() {
        let Some(at) = place else {
            return Ok(out);
        };
        let (key, value) = map.pair(at);
        match key {
            Key::Int(n) => out.push_str(format!(in alloc; "{n}={value};")?.as_str())?,
            Key::Text(t) => {
                let count = t.len();
                out.push_str(format!(in alloc; "text {count}={value};")?.as_str())?;
            }
        }
        place = map.next_of(at);
    }
    Ok(out)
}

#[test]
fn a_key_that_is_set_again_keeps_its_place(rt: HostRuntime) -> Result<(), Fail> {
    let alloc = rt.alloc();
    let mut map = OrderMap::new(alloc);
    assert!(rt; map.set(Key::Int(5), 1u32)?.is_none());
    assert!(rt; map.set(text(alloc, b"a")?, 2)?.is_none());
    assert_eq!(rt; map.remove(&Key::Int(5)), Some(1));
    assert!(rt; matches!(map.append(3), Ok(6)));
    assert!(rt; map.set(Key::Int(9_223_372_036_854_775_807), 4)?.is_none());
    assert!(rt; matches!(map.append(5), Err(AppendFault::KeysSpent)));
    assert!(rt; map.next_key().is_none());
    assert_eq!(rt; map.set(text(alloc, b"a")?, 6)?, Some(2));
    let expected = "text 1=6;6=3;9223372036854775807=4;";
    assert_eq!(rt; shown(alloc, &map)?.as_str(), expected);
    Ok(())
}

#[test]
fn negative_keys_leave_the_next_key_at_0(rt: HostRuntime) -> Result<(), Fail> {
    let mut map = OrderMap::new(rt.alloc());
    assert!(rt; map.set(Key::Int(-7), 1u32)?.is_none());
    assert!(rt; matches!(map.append(2), Ok(0)));
    assert_eq!(rt; shown(rt.alloc(), &map)?.as_str(), "-7=1;0=2;");
    assert!(rt;
        Key::Int(7).hash() == Key::Int(7).hash() && Key::Int(7).hash() != Key::Int(8).hash()
    );
    Ok(())
}

#[test]
fn a_copy_is_its_own(rt: HostRuntime) -> Result<(), Fail> {
    let alloc = rt.alloc();
    let mut map = OrderMap::new(alloc);
    map.raise_next(4);
    assert!(rt; matches!(map.append(1u32), Ok(4)));
    let copy = map.clone()?;
    assert_eq!(rt; map.replace(&Key::Int(4), 2), Some(1));
    assert!(rt; map.replace(&Key::Int(5), 2).is_none());
    assert_eq!(rt; shown(alloc, &copy)?.as_str(), "4=1;");
    assert_eq!(rt; map.get(&Key::Int(4)).copied(), Some(2));
    assert!(rt; map.get(&text(alloc, b"4")?).is_none());
    match map.pop() {
        Some((Key::Int(n), value)) => assert!(rt; n == 4 && value == 2),
        _ => assert!(rt; false),
    }
    assert!(rt; map.pop().is_none() && map.first().is_none());
    assert_eq!(rt; map.next_key(), Some(5));
    match copy.into_values().next() {
        Some((value, rest)) => assert!(rt; value == 1 && rest.next().is_none()),
        None => assert!(rt; false),
    }
    let mut empty: OrderMap<u32> = OrderMap::new(map.allocator());
    empty.raise_next(9);
    empty.lower_next();
    assert_eq!(rt; empty.next_key(), Some(8));
    Ok(())
}

#[test]
fn a_text_is_shared_until_it_is_written(rt: HostRuntime) -> Result<(), Fail> {
    let alloc = rt.alloc();
    let mut a = ByteText::new(alloc)?;
    assert!(rt; a.is_empty());
    a.extend_from_slice(b"ab")?;
    let b = a.clone()?;
    a.extend_from_slice(b"cd")?;
    a.extend_from_slice(b"e")?;
    assert_eq!(rt; a.as_slice(), b"abcde".as_slice());
    assert_eq!(rt; b.as_slice(), b"ab".as_slice());
    assert!(rt; b.len() == 2 && !b.is_empty());
    Ok(())
}
