//! What one thread does.
ghost use Rattle.std.specs.Prelude.{◌≡◌, ◌<◌, []};
ghost use Rattle.turn_store.specs.Passes.{slot_count, IsPassOf, IsAdminOf, held_by};

use std::sync::Wait;
use turn_store::{AdminPass, Lane, Pass, SharedTurns, TakeWait};

/// Takes a slot, counts in its value and gives it back.
fn visit<R: Wait>(rt: &R, store: &SharedTurns<u64>, pass: Pass<u64>, slot: usize) -> Pass<u64>
    requires { IsPassOf store.now pass × (slot < slot_count store.now) × (held_by pass ≡ []) }
    ensures { IsPassOf store.now result × (held_by result ≡ []) }
{
    let mut lane = Lane { store, pass };
    if let TakeWait::Taken(mut taken) = lane.take(rt, slot) {
        taken.value = taken.value.wrapping_add(1);
        lane.store.give_back(&mut lane.pass, taken);
    }
    let Lane { store: _, pass } = lane;
    pass
}

/// Visits one slot after another, from `start` on.
pub fn visits<R: Wait>(
    rt: &R,
    store: &SharedTurns<u64>,
    pass: Pass<u64>,
    slots: usize,
    start: usize,
    count: u32,
) -> Pass<u64>
    requires { IsPassOf store.now pass × (0 < slots) × (slots ≡ slot_count store.now) × (held_by pass ≡ []) }
    ensures { IsPassOf store.now result × (held_by result ≡ []) }
{
    let mut pass = pass;
    for i in 0..count {
        pass = visit(rt, store, pass, start.wrapping_add(i as usize) % slots);
    }
    pass
}

/// Pins one slot after another.
pub fn pins(
    store: &SharedTurns<u64>,
    admin: AdminPass<u64>,
    slots: usize,
    count: u32,
) -> AdminPass<u64>
    requires { IsAdminOf store.now admin × (0 < slots) × (slots ≡ slot_count store.now) }
    ensures { IsAdminOf store.now result }
{
    let mut admin = admin;
    for i in 0..count {
        store.pin(&mut admin, i as usize % slots, (i % 8) as u8);
    }
    admin
}
