//! What a pass knows. No value of these types is made, but for `Opening`.
use atomic_table::TableRule;
use std::collections::LinkedList;
use std::snapshot::Snapshot;

/// A lock that was taken and given back: what the take read, and the value before and after.
pub struct Entry<V> {
    pub slot: u64,
    pub number: u64,
    pub change: u64,
    pub pin: u64,
    pub before: V,
    pub after: V,
}

/// What a pass did.
pub enum Item<V> {
    /// A take that was refused: the slot, and the word that was found.
    Failed(u64, u64),
    Completed(Entry<V>),
}

/// A lock that was taken and not yet given back, with the value that stood home.
pub struct Hold<V> {
    pub slot: u64,
    pub number: u64,
    pub change: u64,
    pub pin: u64,
    pub value: V,
}

/// A pin that the administrator set.
pub struct Change {
    pub slot: u64,
    pub role: u64,
}

/// All that a pass knows.
pub struct View<V> {
    pub items: LinkedList<Item<V>>,
    pub held: LinkedList<Hold<V>>,
    /// The slot whose empty place the pass carries.
    pub hand: Option<u64>,
    pub admin: bool,
    pub changes: LinkedList<Change>,
}

/// The generation and the values that a store began with.
#[derive(Drop)]
pub struct Opening<V> {
    pub first: u32,
    pub values: Snapshot<Vec<V>>,
}

/// The rule of the table, which each step keeps.
pub struct LockRule;

impl<V> TableRule<Option<V>, View<V>, Opening<V>> for LockRule {
    ghost use Rattle.turn_store.specs.Rule.{IsLockState, beginner};

    ghost holds = { λ key. IsLockState key.first key.values.value.items };

    ghost first = { λ _. beginner };
}
