// Sizes of sessions' values.

ghost use Rattle.std.specs.Prelude.{◌≡◌, ◌+◌, ◌-◌, ◌^◌, min, length};
ghost use Rattle.session_book.specs.Marks.{key_data, scalar_data};
ghost use Rattle.session_book.specs.Sizes.{key_size, size_of, array_size};
ghost use Rattle.session_book.specs.Steps.{mark_size};

use crate::mark::{Mark, Scalar, SessionKey};
use crate::value::SessionValue;

/// What a number counts.
const NUMBER: u64 = 9;

/// What a text counts besides its bytes, and a list besides its pairs.
const AROUND: u64 = 5;

impl SessionKey {
    fn size(&self) -> u64
        ensures { result ≡ min (key_size (key_data self.now)) (2 ^ 64 - 1) }
    {
        match self {
            SessionKey::Int(_) => NUMBER,
            SessionKey::Text(text) => AROUND.saturating_add(text.len() as u64),
        }
    }
}

impl Scalar {
    fn size(&self) -> u64
        ensures { result ≡ min (size_of (scalar_data self.now)) (2 ^ 64 - 1) }
    {
        match self {
            Scalar::Null | Scalar::Bool(_) => 1,
            Scalar::Int(_) => NUMBER,
            Scalar::Text(text) => AROUND.saturating_add(text.len() as u64),
        }
    }
}

impl Mark {
    fn size(&self) -> u64
        ensures { result ≡ min (mark_size self.now) (2 ^ 64 - 1) }
    {
        match self {
            Mark::Pair(key, scalar) => key.size().saturating_add(scalar.size()),
            Mark::Open(key, _) => key.size().saturating_add(AROUND),
            Mark::Close => 0,
        }
    }
}

/// The size of a session's value: 1 for null and truth values, 9 for a number, 5 and the length for a text, 5 and the
/// sizes of keys and values for a list; or the greatest number of 64 bits where that is more. It takes no memory.
pub fn size_of_session(value: &SessionValue) -> u64
    ensures { result ≡ min (array_size value.now) (2 ^ 64 - 1) }
{
    let mut size = AROUND;
    for mark in value.marks.as_slice() {
        size = size.saturating_add(mark.size());
    }
    size
}
