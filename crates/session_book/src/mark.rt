// How a session's value is written down.

ghost use Rattle.std.specs.Prelude.{◌≡◌, ◌+◌, length, IfOk};
ghost use Rattle.session_book.specs.Marks.{key_data, scalar_data};
ghost use Rattle.php_values.specs.Data.{data_of};

use order_map::{ByteText, Key};
use php_values::Value;
use sqlite_items::Items;
use std::alloc::{AllocError, Global};

/// A key of a session's list. Its text is its own, so that it can go to another thread.
#[derive(Debug, Drop)]
pub(crate) enum SessionKey {
    Int(i64),
    Text(Items<u8>),
}

/// A value of a session that is no list.
#[derive(Debug, Drop)]
pub(crate) enum Scalar {
    Null,
    Bool(bool),
    Int(i64),
    Text(Items<u8>),
}

/// A session's value is written down pair by pair, from the front: a pair whose value is no list, a key whose list
/// begins, with the list's next key (2 to the power of 63 says that it is spent), or the end of the innermost list.
#[derive(Debug, Drop)]
pub(crate) enum Mark {
    Pair(SessionKey, Scalar),
    Open(SessionKey, u64),
    Close,
}

impl SessionKey {
    /// A copy of an array's key.
    pub(crate) fn of(alloc: Global, key: &Key) -> Result<SessionKey, AllocError>
        ensures { IfOk result (λ k. key_data k ≡ key.now) }
    {
        match key {
            Key::Int(n) => Ok(SessionKey::Int(*n)),
            Key::Text(text) => Ok(SessionKey::Text(Items::from_slice(alloc, text.as_slice())?)),
        }
    }

    /// The same as an array's key.
    pub(crate) fn to_key(&self, alloc: Global) -> Result<Key, AllocError>
        ensures { IfOk result (λ k. k ≡ key_data self.now) }
    {
        match self {
            SessionKey::Int(n) => Ok(Key::Int(*n)),
            SessionKey::Text(text) => Ok(Key::Text(ByteText::from_slice(alloc, text.as_slice())?)),
        }
    }
}

impl Scalar {
    /// The same as an array's value.
    pub(crate) fn to_value(&self, alloc: Global) -> Result<Value, AllocError>
        ensures { IfOk result (λ v. data_of v ≡ scalar_data self.now) }
    {
        match self {
            Scalar::Null => Ok(Value::Null),
            Scalar::Bool(b) => Ok(Value::Bool(*b)),
            Scalar::Int(n) => Ok(Value::Int(*n)),
            Scalar::Text(text) => Ok(Value::Bytes(ByteText::from_slice(alloc, text.as_slice())?)),
        }
    }
}
