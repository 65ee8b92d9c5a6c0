// The same calls on a map and on a plain list of pairs that is searched from the front.

use crate::{ByteText, Key, OrderMap};
use std::alloc::Global;
use std::process::Abort;
use std::test::Fail;

const SPENT: u64 = 1 << 63;

// The reference: pairs in the order in which their keys came, and the next key.
#[derive(Drop)]
struct Listed {
    keys: Vec<Key>,
    values: Vec<u32>,
    next: u64,
}

impl Listed {
    fn find(&self, key: &Key) -> Option<usize> {
        for (i, k) in self.keys.iter().enumerate() {
            if k.is_same(key) {
                return Some(i);
            }
        }
        None
    }

    fn set(&mut self, key: Key, value: u32) -> Result<Option<u32>, Fail> {
        if let Some(i) = self.find(&key) {
            return Ok(self.put(i, value));
        }
        if let Key::Int(n) = key {
            if n >= 0 {
                self.next = self.next.max(n as u64 + 1);
            }
        }
        self.keys.push(key)?;
        self.values.push(value)?;
        Ok(None)
    }

    fn put(&mut self, i: usize, value: u32) -> Option<u32> {
        let old = self.values.get(i).copied();
        if i < self.values.len() {
            self.values[i] = value;
        }
        old
    }

    fn replace(&mut self, key: &Key, value: u32) -> Option<u32> {
        match self.find(key) {
            Some(i) => self.put(i, value),
            None => None,
        }
    }

    fn append(&mut self, value: u32) -> Result<Option<i64>, Fail> {
        if self.next >= SPENT {
            return Ok(None);
        }
        let n = self.next as i64;
        self.keys.push(Key::Int(n))?;
        self.values.push(value)?;
        self.next += 1;
        Ok(Some(n))
    }

    fn remove(&mut self, key: &Key) -> Option<u32> {
        let i = self.find(key)?;
        if i >= self.keys.len() || i >= self.values.len() {
            return None;
        }
        let key = self.keys.remove(i);
        drop(key);
        Some(self.values.remove(i))
    }

    fn pop(&mut self) -> Option<u32> {
        let _key = self.keys.pop();
        self.values.pop()
    }
}

// A key out of few numbers, negative ones among them, and few texts.
fn key(alloc: Global, draw: u64) -> Result<Key, Fail> {
    let n = draw / 3 % 40;
    if draw % 3 == 0 {
        let text = format!(in alloc; "key {n}")?;
        return Ok(Key::Text(ByteText::from_slice(alloc, text.as_bytes())?));
    }
    Ok(Key::Int(n as i64 - 5))
}

// One call on both. Whether they answer alike.
fn step(
    alloc: Global,
    map: &mut OrderMap<u32>,
    list: &mut Listed,
    draw: u64,
    value: u32,
) -> Result<bool, Fail> {
    let key_draw = draw / 16;
    match draw % 16 {
        0..=5 => {
            let old = map.set(key(alloc, key_draw)?, value)?;
            Ok(old == list.set(key(alloc, key_draw)?, value)?)
        }
        6 | 7 => {
            let given = map.append(value).ok();
            Ok(given == list.append(value)?)
        }
        8..=12 => {
            let key = key(alloc, key_draw)?;
            Ok(
                map.get(&key).is_some() == list.find(&key).is_some()
                    && map.remove(&key) == list.remove(&key),
            )
        }
        13 => {
            let key = key(alloc, key_draw)?;
            Ok(map.replace(&key, value) == list.replace(&key, value))
        }
        14 => match map.pop() {
            Some((key, value)) => {
                drop(key);
                Ok(list.pop() == Some(value))
            }
            None => Ok(list.pop().is_none()),
        },
        _ => {
            *map = map.clone()?;
            Ok(true)
        }
    }
}

// Whether a walk gives the pairs of the list in their order, and the next keys are the same.
fn same(map: &OrderMap<u32>, list: &Listed) -> bool {
    let mut place = map.first();
    for (i, k) in list.keys.iter().enumerate() {
        let Some(at) = place else {
            return false;
        };
        let (key, value) = map.pair(at);
        if !key.is_same(k) || list.values.get(i).copied() != Some(*value) {
            return false;
        }
        place = map.next_of(at);
    }
    if place.is_some() || map.len() != list.keys.len() {
        return false;
    }
    match map.next_key() {
        Some(n) => n >= 0 && n as u64 == list.next,
        None => list.next == SPENT,
    }
}

#[test]
fn a_map_does_as_a_list_of_pairs_does(rt: HostRuntime) -> Result<(), Fail> {
    let alloc = rt.alloc();
    let mut map = OrderMap::new(alloc);
    let mut list = Listed {
        keys: Vec::new(alloc),
        values: Vec::new(alloc),
        next: 0,
    };
    let mut draw = 1u64;
    for number in 0..6000u32 {
        draw = draw
            .wrapping_mul(0x5851_f42d_4c95_7f2d)
            .wrapping_add(0x1405_7b7e_f767_814f);
        assert!(rt; step(alloc, &mut map, &mut list, draw >> 33, number)?);
        assert!(rt; number % 8 != 0 || same(&map, &list));
    }
    Ok(())
}

// Whether a walk gives 1, 3, 5 and so on to 99,999, and then 100,000.
fn has_odd_keys(map: &OrderMap<u32>) -> bool {
    let mut place = map.first();
    for number in 0..50_001u32 {
        let Some(at) = place else {
            return false;
        };
        let (key, _value) = map.pair(at);
        let wanted = if number < 50_000 {
            2 * i64::from(number) + 1
        } else {
            100_000
        };
        if !key.is_same(&Key::Int(wanted)) {
            return false;
        }
        place = map.next_of(at);
    }
    place.is_none()
}

#[test]
fn a_hundred_thousand_keys(rt: HostRuntime) -> Result<(), Fail> {
    let mut map = OrderMap::new(rt.alloc());
    for n in 0..100_000u32 {
        assert!(rt; map.set(Key::Int(i64::from(n)), n)?.is_none());
    }
    for n in 0..50_000u32 {
        assert_eq!(rt; map.remove(&Key::Int(i64::from(2 * n))), Some(2 * n));
    }
    assert!(rt; matches!(map.append(1), Ok(100_000)));
    assert!(rt; map.len() == 50_001 && has_odd_keys(&map));
    assert_eq!(rt; map.remove(&Key::Int(100_000)), Some(1));
    assert!(rt; matches!(map.append(2), Ok(100_001)));
    Ok(())
}
