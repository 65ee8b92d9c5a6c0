//! A thread's view of a store: the store, with the thread's pass.
ghost use Rattle.turn_store.specs.Passes.{IsPassOf};

use crate::store::{Pass, SharedTurns};

#[derive(Drop)]
pub struct Lane<'s, V> {
    pub store: &'s SharedTurns<V>,
    pub pass: Pass<V>,
    pub ghost placed: { IsPassOf store.now pass },
}
