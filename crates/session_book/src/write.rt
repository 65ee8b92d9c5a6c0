// Arrays that are kept by a session.

ghost use Rattle.std.specs.Prelude.{◌≡◌, IfOk};
ghost use Rattle.order_map.specs.Arrays.{pairs_of, next_of};
ghost use Rattle.php_values.specs.Data.{data_of, data_pairs, array, array_of};
ghost use Rattle.php_values.specs.Looking.{seen_data};
ghost use Rattle.session_book.specs.Kept.{without_objects, kept_array, kept_pairs};
ghost use Rattle.session_book.specs.Marks.{key_data, scalar_data};
ghost use Rattle.session_book.specs.Steps.{Adds, Writes, inside_of};

use crate::mark::{Mark, Scalar, SessionKey};
use crate::value::SessionValue;
use order_map::{Key, OrderMap};
use php_values::{ArrayValue, Seen, Value, Walk, look_at};
use sqlite_items::Items;
use std::alloc::{AllocError, Global};
use std::mem;

/// The next key of an array that has no free number key left.
const SPENT: u64 = 1 << 63;

// The next key of an array.
fn next_number(map: &OrderMap<Value>) -> u64
    ensures { result ≡ next_of map.now }
{
    match map.next_key() {
        Some(n) => n.cast_unsigned(),
        None => SPENT,
    }
}

// A mark for a pair, and the walk over its value where that is a list.
#[derive(Drop)]
pub(crate) struct Step<'a> {
    pub(crate) mark: Mark,
    pub(crate) inside: Option<Walk<'a>>,
}

// The beginning of a list under a key.
fn begun<'a>(key: SessionKey, map: &'a OrderMap<Value>) -> Step<'a>
    ensures { Adds (key_data key) (array (kept_array (array_of map.now))) result.mark (inside_of result.inside) }
{
    let next = next_number(map);
    let _pairs = map.len();
    Step {
        mark: Mark::Open(key, next),
        inside: Some(Walk::new(map)),
    }
}

// A pair whose value is no list.
fn flat<'a>(key: SessionKey, scalar: Scalar) -> Step<'a>
    ensures { Adds (key_data key) (scalar_data scalar) result.mark (inside_of result.inside) }
{
    Step {
        mark: Mark::Pair(key, scalar),
        inside: None,
    }
}

fn step_of<'a>(alloc: Global, key: &Key, seen: Seen<'a>) -> Result<Step<'a>, AllocError>
    ensures { IfOk result (λ s. Adds key.now (without_objects (seen_data seen.entry)) s.mark (inside_of s.inside)) }
{
    let key = SessionKey::of(alloc, key)?;
    Ok(match seen {
        Seen::Null | Seen::Object(_) => flat(key, Scalar::Null),
        Seen::Truth(b) => flat(key, Scalar::Bool(b)),
        Seen::Int(n) => flat(key, Scalar::Int(n)),
        Seen::Text(text) => flat(key, Scalar::Text(Items::from_slice(alloc, text)?)),
        Seen::Array(map) => begun(key, map),
    })
}

// The marks of an array's pairs, by a loop with a stack of its own.
fn marks_of(alloc: Global, map: &OrderMap<Value>) -> Result<Vec<Mark>, AllocError>
    ensures { IfOk result (λ marks. Writes marks.items (kept_pairs (data_pairs (pairs_of map.now)))) }
{
    let mut marks = Vec::new(alloc);
    let mut above: Vec<Walk<'_>> = Vec::new(alloc);
    let mut walk = Walk::new(map);
    // more turns than there can be pairs
    for _ in 0..u64::MAX {
        let Some((key, value)) = walk.next() else {
            let Some(outer) = above.pop() else {
                return Ok(marks);
            };
            marks.push(Mark::Close)?;
            walk = outer;
            continue;
        };
        let Step { mark, inside } = step_of(alloc, key, look_at(value))?;
        marks.push(mark)?;
        if let Some(inner) = inside {
            above.push(mem::replace(&mut walk, inner))?;
        }
    }
    Err(AllocError)
}

/// What a session keeps of an array: the same pairs and next keys, with null in the place of each object. It takes time
/// in the size of the value, and no recursion follows its nesting.
pub fn from_array(alloc: Global, array: &ArrayValue) -> Result<SessionValue, AllocError>
    ensures { IfOk result (λ value. value ≡ kept_array (array_of array.now.map.value)) }
{
    let map = array.map.as_ref();
    let marks = marks_of(alloc, map)?;
    let _pairs = map.len();
    let next = next_number(map);
    Ok(SessionValue { marks, next })
}
