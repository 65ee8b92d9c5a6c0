//! What the calls answer.
use std::snapshot::Snapshot;

/// A slot that was taken: its value, with what the take's own step read of its word.
#[derive(Drop)]
pub struct Taken<V> {
    pub slot: usize,
    /// The role that the slot was pinned to, 0 for none.
    pub pin: u8,
    /// How often the slot had been pinned.
    pub change: u32,
    /// The generation of the lock: how often it had been given back.
    pub number: u32,
    /// The value that was taken, for clauses alone.
    pub before: Snapshot<V>,
    pub value: V,
}

/// `Busy` and `Spent` have the word that was found.
#[derive(Drop)]
pub enum Take<V> {
    Taken(Taken<V>),
    /// Another pass holds the slot.
    Busy(u64),
    /// The slot's generation is 4,294,967,295: it is never handed out again.
    Spent(u64),
}

/// What became of a pin.
#[derive(Clone, Copy, Debug, Drop, PartialEq, Eq)]
pub enum Pinned {
    /// With the new change number.
    Changed(u32),
    /// The change number is 16,777,215: the slot keeps its pin.
    ChangesSpent,
}

/// What a take that waits answers.
#[derive(Drop)]
pub enum TakeWait<V> {
    Taken(Taken<V>),
    /// With the word that was found.
    Spent(u64),
}
