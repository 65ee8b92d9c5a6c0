// Values as they are looked at.

ghost use Rattle.std.specs.Prelude.{◌≡◌};
ghost use Rattle.order_map.specs.Arrays.{pairs_of};
ghost use Rattle.php_values.specs.Data.{data_of, data_pairs};
ghost use Rattle.php_values.specs.Convert as spec;
ghost use Rattle.php_values.specs.Looking.{seen_data, two_arrays, arrays_seen};

use crate::value::{Value, has_pairs};
use order_map::OrderMap;

/// A value that is looked at: its kind, and what it holds.
#[derive(Clone, Copy)]
pub enum Seen<'a> {
    Null,
    Truth(bool),
    Int(i64),
    Text(&'a [u8]),
    Array(&'a OrderMap<Value>),
    Object(u32),
}

/// What a value is.
pub fn look_at(value: &Value) -> Seen<'_>
    ensures { seen_data result ≡ data_of value.now }
{
    match value {
        Value::Null => Seen::Null,
        Value::Bool(b) => Seen::Truth(*b),
        Value::Int(n) => Seen::Int(*n),
        Value::Bytes(text) => Seen::Text(text.as_slice()),
        Value::List(array) => Seen::Array(array.map.as_ref()),
        Value::Object(n) => Seen::Object(*n),
    }
}

// Whether a text is neither empty nor `0`.
pub(crate) fn text_truth(text: &[u8]) -> bool
    ensures { result ≡ spec.text_truth text.now }
{
    match text {
        [] => false,
        [b] => *b != b'0',
        _ => true,
    }
}

// Whether what is looked at counts as true.
pub(crate) fn seen_truth(seen: Seen<'_>) -> bool
    ensures { result ≡ spec.truth_of (seen_data seen.entry) }
{
    match seen {
        Seen::Null => false,
        Seen::Truth(b) => b,
        Seen::Int(n) => n != 0,
        Seen::Text(text) => text_truth(text),
        Seen::Array(map) => has_pairs(map),
        Seen::Object(_) => true,
    }
}

// The maps of two values, where both are arrays.
pub(crate) fn two_arrays<'a>(
    a: Seen<'a>,
    b: Seen<'a>,
) -> Option<(&'a OrderMap<Value>, &'a OrderMap<Value>)>
    ensures { arrays_seen result ≡ two_arrays (seen_data a.entry) (seen_data b.entry) }
{
    let Seen::Array(x) = a else {
        return None;
    };
    let Seen::Array(y) = b else {
        return None;
    };
    Some((x, y))
}
