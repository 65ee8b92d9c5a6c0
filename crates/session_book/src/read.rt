// Arrays of what a session keeps.

ghost use Rattle.std.specs.Prelude.{◌≡◌, ◌≤◌, ◌<◌, List, [], None, IsTrue, length, IfOk, OnOk};
ghost use Rattle.order_map.specs.Keys.{spent, next_after};
ghost use Rattle.order_map.specs.Arrays.{pairs_of, next_of, look};
ghost use Rattle.php_values.specs.Data.{data_of, data_pairs, array_of, Pairs, no_pairs};
ghost use Rattle.php_values.specs.Arithmetic.{put_last};
ghost use Rattle.session_book.specs.Steps.{CanTake, IsTaken, whole_of};
ghost use Rattle.session_book.specs.Marks.{with_list};
ghost use Rattle.session_book.specs.declared.mark.Mark.TheVariants.{Close};

use crate::mark::Mark;
use crate::value::SessionValue;
use order_map::{Key, OrderMap};
use php_values::{ArrayValue, Value};
use std::alloc::{AllocError, Global};
use std::mem;

// A list that waits for the one inside it, and the key under which that one will stand.
#[derive(Drop)]
pub(crate) struct Outer {
    pub(crate) map: OrderMap<Value>,
    pub(crate) key: Key,
}

// The lists that are open, and the innermost of them.
#[derive(Drop)]
pub(crate) struct Making {
    pub(crate) above: Vec<Outer>,
    pub(crate) map: OrderMap<Value>,
}

// Adds a pair whose key is not there, and is below the next key where it is a number.
fn add(map: &mut OrderMap<Value>, key: Key, value: Value) -> Result<(), AllocError>
    requires free { look key (pairs_of map.old) ≡ None }
    requires below { next_after key (next_of map.old) ≡ next_of map.old }
    ensures pairs { OnOk result (data_pairs (pairs_of map.new) ≡ put_last key (data_of value) (data_pairs (pairs_of map.old))) }
    ensures next { OnOk result (next_of map.new ≡ next_of map.old) }
{
    map.set(key, value)?;
    Ok(())
}

// An array with no pair and a next key.
fn empty(alloc: Global, next: u64) -> OrderMap<Value>
    requires { next ≤ spent }
    ensures pairs { data_pairs (pairs_of result) ≡ no_pairs }
    ensures next { next_of result ≡ next }
{
    let mut map = OrderMap::new(alloc);
    map.raise_next(next);
    map
}

impl Making {
    // Begins a list under a key.
    fn open(&mut self, alloc: Global, key: Key, next: u64) -> Result<(), AllocError>
        requires { next ≤ spent }
        ensures { OnOk result ((pss : List Pairs) → whole_of self.new pss ≡ whole_of self.old (with_list key next pss)) }
    {
        let outer = mem::replace(&mut self.map, empty(alloc, next));
        self.above.push(Outer { map: outer, key })?;
        Ok(())
    }

    // Ends the innermost list; false where it is the outermost one, which stays.
    fn close(&mut self, alloc: Global) -> Result<bool, AllocError>
        requires { CanTake self.old Close }
        ensures taken { IsTaken self.old self.new Close result }
        ensures falls { IfOk result (λ goes. IsTrue goes → length self.new.above.items < length self.old.above.items) }
    {
        let Some(Outer { map, key }) = self.above.pop() else {
            return Ok(false);
        };
        let inner = mem::replace(&mut self.map, map);
        add(
            &mut self.map,
            key,
            Value::List(ArrayValue::new(alloc, inner)?),
        )?;
        Ok(true)
    }

    // Takes a mark; false where it ends the outermost list.
    fn take(&mut self, alloc: Global, mark: &Mark) -> Result<bool, AllocError>
        requires { CanTake self.old mark.now }
        ensures { IsTaken self.old self.new mark.now result }
    {
        match mark {
            Mark::Pair(key, scalar) => {
                let value = scalar.to_value(alloc)?;
                add(&mut self.map, key.to_key(alloc)?, value)?;
                Ok(true)
            }
            Mark::Open(key, next) => {
                self.open(alloc, key.to_key(alloc)?, *next)?;
                Ok(true)
            }
            Mark::Close => self.close(alloc),
        }
    }
}

/// An array with the pairs and next keys that a session keeps. It takes time in their size, and no recursion follows
/// their nesting.
pub fn to_array(alloc: Global, value: &SessionValue) -> Result<ArrayValue, AllocError>
    ensures { IfOk result (λ array. array_of array.map.value ≡ value.now) }
{
    let mut making = Making {
        above: Vec::new(alloc),
        map: empty(alloc, value.next),
    };
    for mark in value.marks.as_slice() {
        if !making.take(alloc, mark)? {
            let array = ArrayValue::new(alloc, making.map)?;
            return Ok(array);
        }
    }
    while making.close(alloc)? {}
    let array = ArrayValue::new(alloc, making.map)?;
    Ok(array)
}
