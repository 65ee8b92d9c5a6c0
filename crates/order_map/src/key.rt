// The keys of an array.

ghost use Rattle.std.specs.Prelude.{◌≡◌, IsTrue};
ghost use Rattle.order_map.specs.Keys.{same_key};
ghost use Rattle.order_map.specs.Hashes.{key_hash, number_hash, text_hash};

use crate::text::ByteText;
use std::alloc::AllocError;

/// A key: a number, or a text. That a text is no number in normal form is kept by those who make keys.
#[derive(Debug, Drop)]
pub enum Key {
    Int(i64),
    Text(ByteText),
}

impl Key {
    /// Whether two keys are the same number or the same text.
    pub fn is_same(&self, other: &Key) -> bool
        ensures { result ≡ same_key self.now other.now }
    {
        match (self, other) {
            (Key::Int(a), Key::Int(b)) => *a == *b,
            (Key::Text(a), Key::Text(b)) => a.as_slice() == b.as_slice(),
            (Key::Int(_), Key::Text(_)) => false,
            (Key::Text(_), Key::Int(_)) => false,
        }
    }
}

// Odd numbers of 64 bits, by which words are multiplied.
const GOLDEN: u64 = 0x9e37_79b9_7f4a_7c15;

const FNV_PRIME: u64 = 0x0100_0000_01b3;

// What Fowler, Noll and Vo's hash 1a of 64 bits begins with.
const FNV_START: u64 = 0xcbf2_9ce4_8422_2325;

// Numbers that follow each other have hashes that mostly do so, and the bits above the lowest 8 change all.
fn number_hash(n: i64) -> u64
    ensures { result ≡ number_hash n }
{
    let word = n.cast_unsigned();
    let high = (word >> 8).wrapping_mul(GOLDEN);
    word ^ high ^ (high >> 32)
}

// Fowler, Noll and Vo's hash 1a, with its upper half laid over the lower one.
fn text_hash(text: &[u8]) -> u64
    ensures { result ≡ text_hash text.now }
{
    let mut hash = FNV_START;
    for byte in text {
        hash = (hash ^ *byte as u64).wrapping_mul(FNV_PRIME);
    }
    hash ^ (hash >> 32)
}

impl Key {
    /// The hash of a key. Keys that are the same have the same hash.
    #[tactic(auto, using(crate::proofs::Keys::same_hash))]
    pub fn hash(&self) -> u64
        ensures value { result ≡ key_hash self.now }
        ensures alike { (other : Key) → IsTrue (same_key self.now other) → key_hash other ≡ key_hash self.now }
    {
        match self {
            Key::Int(n) => number_hash(*n),
            Key::Text(text) => text_hash(text.as_slice()),
        }
    }
}

impl Clone for Key {
    ghost is_clone = { λ key copy. copy ≡ key };

    fn clone(&self) -> Result<Key, AllocError> {
        match self {
            Key::Int(n) => Ok(Key::Int(*n)),
            Key::Text(text) => Ok(Key::Text(text.clone()?)),
        }
    }
}
