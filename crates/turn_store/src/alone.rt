//! Slots that one thread has for itself.
ghost use Rattle.std.specs.Prelude.{◌≡◌, ℕ, ◌<◌, length, slice_index, None};
ghost use mathlib.Core.Option.{some};
ghost use lib.ListN.{get_elem?};
ghost use Rattle.turn_store.specs.Words.{taken_of};

/// Contracts see it as its words and its values.
#[derive(Drop)]
pub struct AloneTurns<V> {
    pub(crate) words: Vec<u64>,
    pub(crate) values: Vec<Option<V>>,
    ghost even: { length words.items ≡ length values.items },
    ghost at_home: { (k : ℕ) → k < length words.items → taken_of (slice_index words.items k) ≡ 0 → ¬ (get_elem? values.items k ≡ some None) },
}
