//! The worked rows.
ghost use Rattle.std.specs.Prelude.{◌≡◌, ◌<◌, ◌^◌, [], length, IfOk};
ghost use Rattle.turn_store.specs.declared.take.Take.TheVariants as answers;
ghost use Rattle.turn_store.specs.Passes.{slot_count, IsAdminOf};
ghost use Rattle.turn_store.specs.Told.{slots};

mod alone;
mod threads;

use crate::{AdminPass, Lane, Pinned, SharedTurns, Take, TakeWait, Taken, Turnstile};
use std::alloc::{AllocError, Global};
use std::test::Fail;

pub(crate) fn tens(alloc: Global, count: usize) -> Result<Vec<u64>, AllocError>
    ensures { IfOk result (λ v. length v.items ≡ count) }
{
    Vec::from_elem(alloc, 10u64, count)
}

/// What a take that has to succeed answers.
pub(crate) fn taken_by(answer: Take<u64>) -> Result<Taken<u64>, Fail>
    ensures { IfOk result (λ t. answer ≡ answers.Taken t) }
{
    match answer {
        Take::Taken(taken) => Ok(taken),
        _ => Err(Fail::from("not taken")),
    }
}

/// The word, where the slot was busy.
pub(crate) fn busy_word(answer: Take<u64>) -> Option<u64> {
    match answer {
        Take::Busy(word) => Some(word),
        _ => None,
    }
}

/// The word, where the slot was spent.
pub(crate) fn spent_word(answer: Take<u64>) -> Option<u64> {
    match answer {
        Take::Spent(word) => Some(word),
        _ => None,
    }
}

/// The number, change, pin and value of what was taken.
pub(crate) fn parts(taken: &Taken<u64>) -> (u32, u32, u8, u64) {
    (taken.number, taken.change, taken.pin, taken.value)
}

/// Takes a slot, adds to its value and gives it back. What it was, where it could be taken.
pub(crate) fn add<T: Turnstile<u64>>(
    turns: &mut T,
    slot: usize,
    by: u64,
) -> Option<(u32, u32, u8, u64)>
    requires { slot < slots (T.told turns.old) }
    ensures { slots (T.told turns.new) ≡ slots (T.told turns.old) }
{
    match turns.try_take(slot) {
        Take::Taken(mut taken) => {
            let had = parts(&taken);
            taken.value = taken.value.wrapping_add(by);
            turns.give_back(taken);
            Some(had)
        }
        _ => None,
    }
}

#[test]
fn a_slot_goes_from_pass_to_pass(rt: HostRuntime) -> Result<(), Fail> {
    let alloc = rt.alloc();
    let (store, mut a, mut admin) = SharedTurns::new(alloc, tens(alloc, 4)?, 0)?;
    let mut b = store.split(&mut a)?;
    let mut taken = taken_by(store.try_take(&mut a, 3))?;
    assert_eq!(rt; parts(&taken), (0, 0, 0, 10));
    assert_eq!(rt; busy_word(store.try_take(&mut b, 3)), Some(1));
    taken.value = 11;
    store.give_back(&mut a, taken);
    assert_eq!(rt; store.pin(&mut admin, 3, 2), Pinned::Changed(1));
    let taken = taken_by(store.try_take(&mut b, 3))?;
    assert_eq!(rt; parts(&taken), (1, 1, 2, 11));
    // the word before was 288230384741646338, and its bit 0 is set now
    assert_eq!(rt;
        busy_word(store.try_take(&mut a, 3)),
        Some(288230384741646339)
    );
    store.give_back(&mut b, taken);
    Ok(())
}

#[test]
fn what_is_held_keeps_what_its_take_read(rt: HostRuntime) -> Result<(), Fail> {
    let alloc = rt.alloc();
    let (store, mut a, mut admin) = SharedTurns::new(alloc, tens(alloc, 1)?, 0)?;
    let mut b = store.split(&mut a)?;
    let taken = taken_by(store.try_take(&mut a, 0))?;
    assert_eq!(rt; parts(&taken), (0, 0, 0, 10));
    assert_eq!(rt; busy_word(store.try_take(&mut b, 0)), Some(1));
    store.give_back(&mut a, taken);
    let taken = taken_by(store.try_take(&mut a, 0))?;
    assert_eq!(rt; store.pin(&mut admin, 0, 3), Pinned::Changed(1));
    assert_eq!(rt; parts(&taken), (1, 0, 0, 10));
    store.give_back(&mut a, taken);
    let taken = taken_by(store.try_take(&mut b, 0))?;
    assert_eq!(rt; parts(&taken), (2, 1, 3, 10));
    store.give_back(&mut b, taken);
    Ok(())
}

#[test]
fn the_last_generation_is_spent(rt: HostRuntime) -> Result<(), Fail> {
    let alloc = rt.alloc();
    let (store, pass, admin) = SharedTurns::new(alloc, tens(alloc, 4)?, 4294967294)?;
    let mut lane = Lane {
        store: &store,
        pass,
    };
    assert_eq!(rt; add(&mut lane, 0, 2), Some((4294967294, 0, 0, 10)));
    assert_eq!(rt; spent_word(lane.try_take(0)), Some(8589934590));
    assert_eq!(rt; spent_word(lane.try_take(0)), Some(8589934591));
    let Lane { store: _, pass } = lane;
    drop((pass, admin));
    Ok(())
}

#[test]
fn a_closed_store_gives_words_and_values(rt: HostRuntime) -> Result<(), Fail> {
    let alloc = rt.alloc();
    let (store, mut a, mut admin) = SharedTurns::new(alloc, tens(alloc, 4)?, 0)?;
    let b = store.split(&mut a)?;
    let mut taken = taken_by(store.try_take(&mut a, 3))?;
    taken.value = 11;
    store.give_back(&mut a, taken);
    store.pin(&mut admin, 3, 2);
    store.join(&mut a, b);
    let Ok(closed) = store.close(alloc, a, admin) else {
        return Err(Fail::from("not closed"));
    };
    let words = [0u64, 0, 0, 288230384741646338];
    assert_eq!(rt; closed.words.as_slice(), words.as_slice());
    let values = [Some(10u64), Some(10), Some(10), Some(11)];
    assert_eq!(rt; closed.values.as_slice(), values.as_slice());
    Ok(())
}

#[test]
fn a_pass_holds_two_slots(rt: HostRuntime) -> Result<(), Fail> {
    let alloc = rt.alloc();
    let (store, mut a, admin) = SharedTurns::new(alloc, tens(alloc, 3)?, 0)?;
    let mut one = taken_by(store.try_take(&mut a, 1))?;
    let mut two = taken_by(store.try_take(&mut a, 2))?;
    one.value = 21;
    two.value = 22;
    store.give_back(&mut a, one);
    store.give_back(&mut a, two);
    let Ok(closed) = store.close(alloc, a, admin) else {
        return Err(Fail::from("not closed"));
    };
    let values = [Some(10u64), Some(21), Some(22)];
    assert_eq!(rt; closed.values.as_slice(), values.as_slice());
    Ok(())
}

/// Pins a slot many times, to one role after another. Whether each change had its number.
pub(crate) fn pin_often(
    store: &SharedTurns<u64>,
    admin: &mut AdminPass<u64>,
    slot: usize,
    times: u32,
) -> bool
    requires { IsAdminOf store.now admin.old × (slot < slot_count store.now) × (times < 2 ^ 24) }
    ensures { IsAdminOf store.now admin.new }
{
    let mut numbered = true;
    for i in 0..times {
        let pinned = store.pin(admin, slot, (i % 128) as u8);
        numbered = numbered && pinned == Pinned::Changed(i + 1);
    }
    numbered
}

#[test]
fn changes_run_out(rt: HostRuntime) -> Result<(), Fail> {
    let alloc = rt.alloc();
    let (store, pass, mut admin) = SharedTurns::new(alloc, tens(alloc, 2)?, 0)?;
    assert!(rt; pin_often(&store, &mut admin, 1, 16777215));
    assert_eq!(rt; store.pin(&mut admin, 1, 5), Pinned::ChangesSpent);
    assert_eq!(rt; store.pin(&mut admin, 0, 5), Pinned::Changed(1));
    let mut lane = Lane {
        store: &store,
        pass,
    };
    assert_eq!(rt; add(&mut lane, 1, 1), Some((0, 16777215, 126, 10)));
    Ok(())
}

#[test]
fn a_lane_takes_what_is_free(rt: HostRuntime) -> Result<(), Fail> {
    let alloc = rt.alloc();
    let (store, pass, _) = SharedTurns::new(alloc, tens(alloc, 2)?, 4294967294)?;
    let mut lane = Lane {
        store: &store,
        pass,
    };
    let TakeWait::Taken(taken) = lane.take(&rt, 0) else {
        return Err(Fail::from("not taken"));
    };
    assert_eq!(rt; parts(&taken), (4294967294, 0, 0, 10));
    lane.store.give_back(&mut lane.pass, taken);
    let TakeWait::Spent(word) = lane.take(&rt, 0) else {
        return Err(Fail::from("not spent"));
    };
    assert_eq!(rt; word, 8589934590);
    Ok(())
}
