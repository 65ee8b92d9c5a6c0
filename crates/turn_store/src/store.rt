//! A store and its passes.
ghost use Rattle.std.specs.Prelude.{◌≡◌, ◌<◌, length, true, []};
ghost use Rattle.turn_store.specs.Rule.{carried_of, is_handy};

use crate::view::{LockRule, Opening, View};
use atomic_table::{Seat, Table};
use std::alloc::Global;

pub type Board<V> = Table<Option<V>, View<V>, Opening<V>, LockRule, Global>;

/// Slots that threads share by reference. Each thread has a `Pass` of its own.
#[derive(Drop)]
pub struct SharedTurns<V> {
    pub(crate) board: Board<V>,
    ghost sized: { board.shared.table_id.words ≡ board.shared.table_id.slots },
    ghost opened: { board.shared.table_id.slots ≡ length board.shared.key.values.value.items },
    ghost some_slot: { 0 < board.shared.table_id.words },
}

/// What a thread takes slots with. It may hold several, and give them back in any order.
/// A pass that is dropped takes its items with it, and what it holds stays taken for good.
#[derive(Drop)]
pub struct Pass<V> {
    pub(crate) seat: Seat<Option<V>, View<V>>,
    ghost at_rest: { (seat.me.1 ≡ carried_of seat.me.0.hand) × (is_handy seat.me.0.hand seat.me.0.held ≡ true) },
}

/// What the administrator pins slots with. A store has one.
#[derive(Drop)]
pub struct AdminPass<V> {
    pub(crate) seat: Seat<Option<V>, View<V>>,
    ghost at_rest: { (seat.me.1 ≡ []) × (seat.me.0.admin ≡ true) × (seat.me.0.items ≡ []) × (seat.me.0.held ≡ []) },
}
