//! Several threads on one store.
ghost use Rattle.std.specs.Prelude.{◌≡◌, ◌<◌, [], IfOk};
ghost use Rattle.std.specs.Thread.{IsSync};
ghost use Rattle.turn_store.specs.Passes.{slot_count, IsPassOf, held_by};

use crate::plan::{Plan, Width};
use crate::visitor::{pins, visits};
use std::alloc::{AllocError, Global};
use std::sync::Wait;
use std::thread::{Threads, join};
use turn_store::{Pass, SharedTurns};

/// What the closing words count, over all slots.
#[derive(Debug, Drop)]
pub struct Done {
    pub visits: u64,
    pub pins: u64,
}

fn two<R: Threads + Wait + Sync>(
    rt: &R,
    store: &SharedTurns<u64>,
    mut pass: Pass<u64>,
    slots: usize,
    start: usize,
    count: u32,
) -> Result<Pass<u64>, AllocError>
    requires { IsPassOf store.now pass × (0 < slots) × (slots ≡ slot_count store.now) × (held_by pass ≡ []) }
    ensures { IfOk result (λ p. IsPassOf store.now p × (held_by p ≡ [])) }
{
    let other = store.split(&mut pass)?;
    let (mut pass, other) = join(
        rt,
        || visits(rt, store, pass, slots, start, count),
        || visits(
            rt,
            store,
            other,
            slots,
            start.wrapping_add(slots / 2),
            count,
        ),
    );
    store.join(&mut pass, other);
    Ok(pass)
}

fn four<R: Threads + Wait + Sync>(
    rt: &R,
    store: &SharedTurns<u64>,
    mut pass: Pass<u64>,
    slots: usize,
    count: u32,
) -> Result<Pass<u64>, AllocError>
    requires { IsPassOf store.now pass × (0 < slots) × (slots ≡ slot_count store.now) × (held_by pass ≡ []) }
    ensures { IfOk result (λ p. IsPassOf store.now p × (held_by p ≡ [])) }
{
    let other = store.split(&mut pass)?;
    let (pass, other) = join(
        rt,
        || -> Result<Pass<u64>, AllocError>
            requires { IsSync R.row × IsPassOf store.now pass × (0 < slots) × (slots ≡ slot_count store.now) × (held_by pass ≡ []) }
            ensures { IfOk result (λ p. IsPassOf store.entry.now p × (held_by p ≡ [])) }
        { two(rt, store, pass, slots, 0, count) },
        || -> Result<Pass<u64>, AllocError>
            requires { IsSync R.row × IsPassOf store.now other × (0 < slots) × (slots ≡ slot_count store.now) × (held_by other ≡ []) }
            ensures { IfOk result (λ p. IsPassOf store.entry.now p × (held_by p ≡ [])) }
        { two(rt, store, other, slots, slots / 4, count) },
    );
    let mut pass = pass?;
    store.join(&mut pass, other?);
    Ok(pass)
}

fn visit_all<R: Threads + Wait + Sync>(
    rt: &R,
    store: &SharedTurns<u64>,
    pass: Pass<u64>,
    plan: &Plan,
) -> Result<Pass<u64>, AllocError>
    requires { IsPassOf store.now pass × (plan.now.slots ≡ slot_count store.now) × (held_by pass ≡ []) }
    ensures { IfOk result (λ p. IsPassOf store.now p × (held_by p ≡ [])) }
{
    match plan.threads {
        Width::One => Ok(visits(rt, store, pass, plan.slots, 0, plan.visits)),
        Width::Two => two(rt, store, pass, plan.slots, 0, plan.visits),
        Width::Four => four(rt, store, pass, plan.slots, plan.visits),
    }
}

/// The generations and the change numbers of all words, added up.
fn count(words: &[u64]) -> Done {
    let mut done = Done { visits: 0, pins: 0 };
    for word in words {
        done.visits = done.visits.wrapping_add((word >> 1) & 0xffff_ffff);
        done.pins = done.pins.wrapping_add((word >> 33) & 0xff_ffff);
    }
    done
}

/// Makes a store, visits and pins it, and closes it.
pub fn run<R: Threads + Wait + Sync>(
    rt: &R,
    alloc: Global,
    plan: &Plan,
) -> Result<Done, AllocError> {
    let values = Vec::from_elem(alloc, 0u64, plan.slots)?;
    let (store, pass, admin) = SharedTurns::new(alloc, values, 0)?;
    let shared = &store;
    let (pass, admin) = join(
        rt,
        || -> Result<Pass<u64>, AllocError>
            requires { IsSync R.row × IsPassOf shared.now pass × (plan.now.slots ≡ slot_count shared.now) × (held_by pass ≡ []) }
            ensures { IfOk result (λ p. IsPassOf shared.entry.now p × (held_by p ≡ [])) }
        { visit_all(rt, shared, pass, plan) },
        || pins(shared, admin, plan.slots, plan.pins),
    );
    match store.close(alloc, pass?, admin) {
        Ok(closed) => Ok(count(closed.words.as_slice())),
        Err(_) => Err(AllocError),
    }
}
