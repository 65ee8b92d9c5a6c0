//! Passes are split and joined.
ghost use Rattle.std.specs.Prelude.{◌≡◌, ◌++◌, [], Ok, IsOkAnd};
ghost use Rattle.turn_store.specs.Passes.{IsPassOf, items_of, held_by};

use crate::plays::{Another, Together};
use crate::store::{Pass, SharedTurns};
use std::alloc::AllocError;

impl<V> SharedTurns<V> {
    /// A new pass, with no items and no slot. It takes no memory, and is always `Ok`.
    pub fn split(&self, pass: &mut Pass<V>) -> Result<Pass<V>, AllocError>
        requires { IsPassOf self.now pass.old }
        ensures pass { IsPassOf self.now pass.new }
        ensures same { (items_of pass.new ≡ items_of pass.old) × (held_by pass.new ≡ held_by pass.old) }
        ensures ok { IsOkAnd result (λ p. IsPassOf self.now p × (items_of p ≡ []) × (held_by p ≡ [])) }
    {
        Ok(Pass {
            seat: self.board.shared.split_seat::<Another>(&mut pass.seat),
        })
    }

    /// Puts the items of two passes into one: those of `into` first.
    pub fn join(&self, into: &mut Pass<V>, other: Pass<V>)
        requires passes { IsPassOf self.now into.old × IsPassOf self.now other }
        requires free { held_by other ≡ [] }
        ensures pass { IsPassOf self.now into.new }
        ensures items { items_of into.new ≡ items_of into.old ++ items_of other }
        ensures held { held_by into.new ≡ held_by into.old }
    {
        let Pass { seat } = other;
        self.board
            .shared
            .join_seat::<Together>(&mut into.seat, seat);
    }
}
