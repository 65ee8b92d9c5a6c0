//! Threads that take, give back and pin at once.
ghost use Rattle.std.specs.Prelude.{◌≡◌, ◌<◌, []};
ghost use Rattle.turn_store.specs.Passes.{slot_count, IsPassOf, IsAdminOf, held_by};

use super::{busy_word, pin_often, tens};
use crate::{AdminPass, Closed, Lane, Pass, Pinned, SharedTurns, Take, TakeWait};
use std::alloc::{AllocError, Global};
use std::sync::Wait;
use std::sync::atomic::{AtomicU64, Ordering};
use std::test::Fail;
use std::thread::{Threads, join, yield_now};

const VISITS: u32 = 5000;

const PINS: u32 = 3000;

/// A visit of slot 1 that waits for it.
fn visit<R: Wait>(rt: &R, store: &SharedTurns<u64>, pass: Pass<u64>) -> Pass<u64>
    requires { IsPassOf store.now pass × (1 < slot_count store.now) × (held_by pass ≡ []) }
    ensures { IsPassOf store.now result × (held_by result ≡ []) }
{
    let mut lane = Lane { store, pass };
    if let TakeWait::Taken(mut taken) = lane.take(rt, 1) {
        taken.value = taken.value.wrapping_add(1);
        lane.store.give_back(&mut lane.pass, taken);
    }
    let Lane { store: _, pass } = lane;
    pass
}

fn visits<R: Wait>(rt: &R, store: &SharedTurns<u64>, pass: Pass<u64>) -> Pass<u64>
    requires { IsPassOf store.now pass × (1 < slot_count store.now) × (held_by pass ≡ []) }
    ensures { IsPassOf store.now result × (held_by result ≡ []) }
{
    let mut pass = pass;
    for _ in 0..VISITS {
        pass = visit(rt, store, pass);
    }
    pass
}

/// Pins slot 1 many times while another thread visits it, and then visits it too.
fn pins_and_visits<R: Wait>(
    rt: &R,
    store: &SharedTurns<u64>,
    pass: Pass<u64>,
    admin: AdminPass<u64>,
) -> (Pass<u64>, AdminPass<u64>, bool)
    requires { IsPassOf store.now pass × IsAdminOf store.now admin × (1 < slot_count store.now) × (held_by pass ≡ []) }
    ensures { IsPassOf store.now result.0 × IsAdminOf store.now result.1 × (held_by result.0 ≡ []) }
{
    let mut admin = admin;
    let numbered = pin_often(store, &mut admin, 1, PINS);
    (visits(rt, store, pass), admin, numbered)
}

fn race<R: Threads + Wait + Sync>(
    rt: &R,
    alloc: Global,
) -> Result<(Closed<u64>, bool), AllocError> {
    let (store, mut a, admin) = SharedTurns::new(alloc, tens(alloc, 4)?, 0)?;
    let b = store.split(&mut a)?;
    let (mut a, (b, admin, numbered)) = join(
        rt,
        || visits(rt, &store, a),
        || pins_and_visits(rt, &store, b, admin),
    );
    store.join(&mut a, b);
    match store.close(alloc, a, admin) {
        Ok(closed) => Ok((closed, numbered)),
        Err(_) => Err(AllocError),
    }
}

#[test]
fn two_threads_visit_and_one_pins(rt: HostRuntime) -> Result<(), Fail> {
    let (closed, numbered) = race(&rt, rt.alloc())?;
    assert!(rt; numbered);
    let values = [Some(10u64), Some(10 + 10000), Some(10), Some(10)];
    assert_eq!(rt; closed.values.as_slice(), values.as_slice());
    let words = [0u64, 10000 * 2 + (3000 << 33) + (55 << 57), 0, 0];
    assert_eq!(rt; closed.words.as_slice(), words.as_slice());
    Ok(())
}

/// How often a thread looks for what the other does, before it gives up.
const LOOKS: u32 = 10_000_000;

/// Waits until the flag is set. Whether it was in time.
fn was_set(flag: &AtomicU64) -> bool {
    for _ in 0..LOOKS {
        if flag.load(Ordering::SeqCst) == 1 {
            return true;
        }
        yield_now();
    }
    false
}

/// Holds slot 0 until the other thread's calls have all returned. Whether they did in time.
fn hold(store: &SharedTurns<u64>, mut pass: Pass<u64>, held: &AtomicU64, done: &AtomicU64) -> bool
    requires { IsPassOf store.now pass × (0 < slot_count store.now) }
{
    let Take::Taken(taken) = store.try_take(&mut pass, 0) else {
        return false;
    };
    held.store(1, Ordering::SeqCst);
    let in_time = was_set(done);
    store.give_back(&mut pass, taken);
    in_time
}

/// Makes each call, on slot 0 that is held and on slot 1 that is not.
fn make_calls(store: &SharedTurns<u64>, pass: &mut Pass<u64>, admin: &mut AdminPass<u64>) -> bool
    requires { IsPassOf store.now pass.old × IsAdminOf store.now admin.old × (1 < slot_count store.now) }
{
    let Ok(mut other) = store.split(pass) else {
        return false;
    };
    let busy = busy_word(store.try_take(&mut other, 0)) == Some(1);
    let Take::Taken(taken) = store.try_take(pass, 1) else {
        return false;
    };
    store.give_back(pass, taken);
    let pinned = store.pin(admin, 0, 4) == Pinned::Changed(1);
    let Ok(third) = store.split(&mut other) else {
        return false;
    };
    store.join(pass, third);
    busy && pinned
}

/// Makes all calls once slot 0 is held. Whether they answered as they should.
fn call(
    store: &SharedTurns<u64>,
    mut pass: Pass<u64>,
    mut admin: AdminPass<u64>,
    held: &AtomicU64,
    done: &AtomicU64,
) -> bool
    requires { IsPassOf store.now pass × IsAdminOf store.now admin × (1 < slot_count store.now) }
{
    let right = was_set(held) && make_calls(store, &mut pass, &mut admin);
    done.store(1, Ordering::SeqCst);
    right
}

fn meet<R: Threads + Sync>(rt: &R, alloc: Global) -> Result<(bool, bool), AllocError> {
    let (store, mut a, admin) = SharedTurns::new(alloc, tens(alloc, 2)?, 0)?;
    let b = store.split(&mut a)?;
    let (held, done) = (AtomicU64::new(0), AtomicU64::new(0));
    Ok(join(
        rt,
        || hold(&store, a, &held, &done),
        || call(&store, b, admin, &held, &done),
    ))
}

#[test]
fn no_call_waits_for_a_slot_that_is_held(rt: HostRuntime) -> Result<(), Fail> {
    assert_eq!(rt; meet(&rt, rt.alloc())?, (true, true));
    Ok(())
}
