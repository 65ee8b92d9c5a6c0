use crate::{
    Change, Direction, PlaceFault, Reading, Step, Store, read_value, stepped, unset_value,
    write_value,
};
use order_map::ByteText;
use php_values::{Value, ValueFault};
use std::alloc::Global;
use std::test::Fail;

const GET: usize = 0;

const A: usize = 6;

const B: usize = 7;

const C: usize = 8;

fn at(n: i64) -> Step {
    Step::At(Value::Int(n))
}

fn text(alloc: Global, bytes: &[u8]) -> Result<Value, Fail> {
    Ok(Value::Bytes(ByteText::from_slice(alloc, bytes)?))
}

// Whether a number is written.
fn put(alloc: Global, store: &mut Store, name: usize, path: &[Step], n: i64) -> bool {
    store
        .write(alloc, name, path, Change::Put(Value::Int(n)))
        .is_ok()
}

// The number in a place: -1 for null, -2 for another value, -3 where it is refused.
fn number(alloc: Global, store: &Store, name: usize, path: &[Step]) -> i64 {
    match store.read(alloc, Reading::Plain, name, path) {
        Ok(Value::Int(n)) => n,
        Ok(Value::Null) => -1,
        Ok(_) => -2,
        Err(_) => -3,
    }
}

// Whether a place reads as a text.
fn reads(alloc: Global, value: &Value, path: &[Step], expected: &[u8]) -> bool {
    let Ok(found) = read_value(alloc, Reading::Plain, value, path) else {
        return false;
    };
    match &found {
        Value::Bytes(t) => t.as_slice() == expected,
        _ => false,
    }
}

#[test]
fn a_reference_is_one_cell_until_one_name_is_unset(rt: HostRuntime) -> Result<(), Fail> {
    let alloc = rt.alloc();
    let mut store = Store::new(alloc);
    assert!(rt; put(alloc, &mut store, A, &[], 1));
    store.refer(B, A)?;
    assert!(rt; put(alloc, &mut store, B, &[], 2));
    assert_eq!(rt; number(alloc, &store, A, &[]), 2);
    store.unset_variable(B)?;
    assert_eq!(rt; number(alloc, &store, B, &[]), -1);
    assert!(rt; put(alloc, &mut store, B, &[], 3));
    assert_eq!(rt; number(alloc, &store, A, &[]), 2);
    store.unset_variable(A)?;
    store.unset_variable(A)?;
    assert_eq!(rt; number(alloc, &store, A, &[]), -1);
    store.refer(C, B)?;
    store.refer(C, C)?;
    assert_eq!(rt; number(alloc, &store, C, &[]), 3);
    assert!(rt; matches!(store.value(B), Some(Value::Int(3))));
    assert!(rt; store.value(A).is_none() || matches!(store.value(A), Some(Value::Null)));
    Ok(())
}

#[test]
fn a_call_sees_its_own_names(rt: HostRuntime) -> Result<(), Fail> {
    let alloc = rt.alloc();
    let mut store = Store::new(alloc);
    assert!(rt; put(alloc, &mut store, A, &[], 1));
    assert!(rt; put(alloc, &mut store, GET, &[], 7));
    let shared = store.shared_cell(A)?;
    store.enter()?;
    assert_eq!(rt; number(alloc, &store, A, &[]), -1);
    assert_eq!(rt; number(alloc, &store, GET, &[]), 7);
    store.bind(B, shared)?;
    assert!(rt; put(alloc, &mut store, B, &[], 2));
    assert!(rt; put(alloc, &mut store, A, &[], 3));
    store.enter()?;
    store.global(A)?;
    assert_eq!(rt; number(alloc, &store, A, &[]), 2);
    store.global(C)?;
    assert!(rt; put(alloc, &mut store, C, &[], 5));
    store.refer(GET, C)?;
    assert_eq!(rt; number(alloc, &store, GET, &[]), 5);
    store.leave();
    assert_eq!(rt; number(alloc, &store, A, &[]), 3);
    assert_eq!(rt; number(alloc, &store, C, &[]), -1);
    store.leave();
    assert_eq!(rt; number(alloc, &store, A, &[]), 2);
    assert_eq!(rt; number(alloc, &store, C, &[]), 5);
    assert_eq!(rt; number(alloc, &store, GET, &[]), 7);
    store.leave();
    assert_eq!(rt; number(alloc, &store, A, &[]), 2);
    Ok(())
}

#[test]
fn a_static_variable_keeps_its_value(rt: HostRuntime) -> Result<(), Fail> {
    let alloc = rt.alloc();
    let mut store = Store::new(alloc);
    for turn in 0..3i64 {
        store.enter()?;
        let cell = match store.static_cell(4) {
            Some(cell) => cell,
            None => store.new_static(4, Value::Int(10))?,
        };
        store.bind(A, cell)?;
        assert_eq!(rt; number(alloc, &store, A, &[]), 10 + turn);
        assert!(rt; put(alloc, &mut store, A, &[], 11 + turn));
        store.leave();
    }
    assert!(rt; store.static_cell(3).is_none());
    assert_eq!(rt; store.cell(A)?, store.cell(A)?);
    Ok(())
}

#[test]
fn nested_writes(rt: HostRuntime) -> Result<(), Fail> {
    let alloc = rt.alloc();
    let mut store = Store::new(alloc);
    assert!(rt; put(alloc, &mut store, A, &[at(3), at(1)], 5));
    assert!(rt; put(alloc, &mut store, A, &[Step::Next, Step::Next], 6));
    assert_eq!(rt; number(alloc, &store, A, &[at(4), at(0)]), 6);
    assert!(rt;
        put(
            alloc,
            &mut store,
            A,
            &[Step::At(text(alloc, b"4")?), at(0)],
            8
        )
    );
    assert_eq!(rt; number(alloc, &store, A, &[at(4), at(0)]), 8);
    let copy = store.read(alloc, Reading::Plain, A, &[]);
    let Ok(copy) = copy else {
        assert!(rt; false);
        return Ok(());
    };
    assert!(rt;
        store
            .write(alloc, A, &[Step::Next], Change::Put(copy))
            .is_ok()
    );
    assert_eq!(rt; number(alloc, &store, A, &[at(5), at(3), at(1)]), 5);
    assert_eq!(rt; number(alloc, &store, A, &[at(5), at(5)]), -1);
    assert!(rt; store.unset(alloc, A, &[at(3), at(1)]).is_ok());
    assert!(rt; store.unset(alloc, A, &[at(9), at(1)]).is_ok());
    assert_eq!(rt; number(alloc, &store, A, &[at(3), at(1)]), -1);
    assert_eq!(rt; number(alloc, &store, A, &[at(5), at(3), at(1)]), 5);
    assert!(rt; put(alloc, &mut store, A, &[at(3), Step::Next], 9));
    assert_eq!(rt; number(alloc, &store, A, &[at(3), at(2)]), 9);
    Ok(())
}

#[test]
fn what_is_refused_changes_nothing(rt: HostRuntime) -> Result<(), Fail> {
    let alloc = rt.alloc();
    let mut store = Store::new(alloc);
    let word = text(alloc, b"word")?;
    assert!(rt; store.write(alloc, A, &[at(1)], Change::Put(word)).is_ok());
    let done = store.write(alloc, A, &[at(1), at(0)], Change::Put(Value::Null));
    assert_eq!(rt; done, Err(PlaceFault::Kind));
    let object = Value::Object(1);
    assert!(rt; store.write(alloc, A, &[at(2)], Change::Put(object)).is_ok());
    let done = store.write(alloc, A, &[at(2), Step::Next], Change::Put(Value::Null));
    assert_eq!(rt; done, Err(PlaceFault::ObjectAsArray));
    let done = store.write(
        alloc,
        A,
        &[Step::At(Value::Object(1))],
        Change::Put(Value::Null),
    );
    assert_eq!(rt; done, Err(PlaceFault::Kind));
    let name = ByteText::from_slice(alloc, b"p")?;
    let done = store.write(alloc, A, &[Step::Member(name)], Change::Put(Value::Null));
    assert_eq!(rt; done, Err(PlaceFault::NotAnObject));
    assert_eq!(rt;
        store.unset(alloc, A, &[at(1), at(0)]),
        Err(PlaceFault::Kind)
    );
    assert!(rt; put(alloc, &mut store, A, &[at(i64::MAX)], 3));
    let done = store.write(alloc, A, &[Step::Next], Change::Put(Value::Null));
    assert_eq!(rt; done, Err(PlaceFault::Keys));
    assert_eq!(rt; number(alloc, &store, A, &[at(3)]), -1);
    Ok(())
}

#[test]
fn offsets_of_texts(rt: HostRuntime) -> Result<(), Fail> {
    let alloc = rt.alloc();
    let word = text(alloc, b"word")?;
    let rows: [(i64, &[u8]); 6] = [
        (0, b"w"),
        (3, b"d"),
        (4, b""),
        (-1, b"d"),
        (-4, b"w"),
        (-5, b""),
    ];
    for (n, expected) in rows {
        assert!(rt; reads(alloc, &word, &[at(n)], expected));
    }
    let key = [Step::At(text(alloc, b"k")?)];
    let plain = read_value(alloc, Reading::Plain, &word, &key);
    assert!(rt; matches!(plain, Err(PlaceFault::Kind)));
    let quiet = read_value(alloc, Reading::Quiet, &word, &key);
    assert!(rt; matches!(quiet, Ok(Value::Null)));
    let quiet = read_value(alloc, Reading::Quiet, &word, &[at(4)]);
    assert!(rt; matches!(quiet, Ok(Value::Null)));
    let object = read_value(alloc, Reading::Quiet, &Value::Object(1), &[at(4)]);
    assert!(rt; matches!(object, Err(PlaceFault::ObjectAsArray)));
    let number = read_value(
        alloc,
        Reading::Plain,
        &Value::Int(1),
        &[Step::At(Value::Object(1))],
    );
    assert!(rt; matches!(number, Ok(Value::Null)));
    Ok(())
}

#[test]
fn a_text_grows_in_its_place(rt: HostRuntime) -> Result<(), Fail> {
    let alloc = rt.alloc();
    let mut value = Value::Null;
    let more = ByteText::from_slice(alloc, b"ab")?;
    let done = write_value(alloc, &mut value, &[at(0)], Change::Grow(more.clone()?));
    assert_eq!(rt; done, Err(PlaceFault::Kind));
    assert!(rt; matches!(value, Value::Null));
    let word = text(alloc, b"w")?;
    assert!(rt; write_value(alloc, &mut value, &[at(0)], Change::Put(word)).is_ok());
    assert!(rt; write_value(alloc, &mut value, &[at(0)], Change::Grow(more.clone()?)).is_ok());
    assert!(rt; reads(alloc, &value, &[at(0)], b"wab"));
    assert!(rt; unset_value(alloc, &mut value, &[at(0)]).is_ok());
    let gone = read_value(alloc, Reading::Plain, &value, &[at(0)]);
    assert!(rt; matches!(gone, Ok(Value::Null)));
    Ok(())
}

#[test]
fn steps_up_and_down(rt: HostRuntime) -> Result<(), Fail> {
    let alloc = rt.alloc();
    assert!(rt; matches!(stepped(Direction::Up, &Value::Null), Ok(Value::Int(1))));
    assert!(rt; matches!(stepped(Direction::Down, &Value::Null), Ok(Value::Null)));
    assert!(rt;
        matches!(
            stepped(Direction::Up, &Value::Bool(true)),
            Ok(Value::Bool(true))
        )
    );
    assert!(rt; matches!(stepped(Direction::Down, &Value::Int(5)), Ok(Value::Int(4))));
    let most = stepped(Direction::Up, &Value::Int(i64::MAX));
    assert!(rt; matches!(most, Err(ValueFault::Float)));
    let nine = text(alloc, b" 9")?;
    assert!(rt; matches!(stepped(Direction::Up, &nine), Ok(Value::Int(10))));
    let word = text(alloc, b"9a")?;
    assert!(rt; matches!(stepped(Direction::Up, &word), Err(ValueFault::Kind)));
    Ok(())
}
