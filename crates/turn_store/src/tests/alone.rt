//! Slots that one thread has for itself.
ghost use Rattle.std.specs.Prelude.{◌≡◌, ◌<◌, ◌^◌, length};
ghost use Rattle.turn_store.specs.Alone.{words_of};

use super::{add, busy_word, parts, spent_word, taken_by, tens};
use crate::{AloneTurns, Pinned, Take, Turnstile};
use std::test::Fail;

#[test]
fn slots_are_taken_alone(rt: HostRuntime) -> Result<(), Fail> {
    let alloc = rt.alloc();
    let Ok(mut alone) = AloneTurns::new(alloc, tens(alloc, 4)?, 0) else {
        return Err(Fail::from("no memory"));
    };
    assert_eq!(rt; add(&mut alone, 3, 1), Some((0, 0, 0, 10)));
    assert_eq!(rt; alone.pin(3, 2), Pinned::Changed(1));
    let taken = taken_by(alone.try_take(3))?;
    assert_eq!(rt; parts(&taken), (1, 1, 2, 11));
    assert_eq!(rt; busy_word(alone.try_take(3)), Some(288230384741646339));
    let values = [Some(10u64), Some(10), Some(10), None];
    assert_eq!(rt; alone.into_values().as_slice(), values.as_slice());
    drop(taken);
    Ok(())
}

/// Pins slot 0 while it is out, and gives it back with the value 12.
fn pin_what_is_out(alone: &mut AloneTurns<u64>) -> Option<((u32, u32, u8, u64), Pinned)>
    requires { 0 < length (words_of alone.old) }
    ensures { length (words_of alone.new) ≡ length (words_of alone.old) }
{
    let Take::Taken(mut taken) = alone.try_take(0) else {
        return None;
    };
    let had = parts(&taken);
    let pinned = alone.pin(0, 3);
    taken.value = 12;
    alone.give_back(taken);
    Some((had, pinned))
}

#[test]
fn a_slot_that_is_out_is_pinned(rt: HostRuntime) -> Result<(), Fail> {
    let alloc = rt.alloc();
    let Ok(mut alone) = AloneTurns::new(alloc, tens(alloc, 1)?, 0) else {
        return Err(Fail::from("no memory"));
    };
    let done = pin_what_is_out(&mut alone);
    assert!(rt; done == Some(((0, 0, 0, 10), Pinned::Changed(1))));
    assert_eq!(rt; add(&mut alone, 0, 0), Some((1, 1, 3, 12)));
    Ok(())
}

/// Pins slot 0 many times. Whether each change had its number.
fn pin_often_alone(alone: &mut AloneTurns<u64>, times: u32) -> bool
    requires { (0 < length (words_of alone.old)) × (times < 2 ^ 24) }
    ensures { length (words_of alone.new) ≡ length (words_of alone.old) }
{
    let mut numbered = true;
    for i in 0..times {
        numbered = numbered && alone.pin(0, 127) == Pinned::Changed(i + 1);
    }
    numbered
}

#[test]
fn generations_and_changes_run_out_alone(rt: HostRuntime) -> Result<(), Fail> {
    let alloc = rt.alloc();
    let Ok(mut alone) = AloneTurns::new(alloc, tens(alloc, 1)?, 4294967294) else {
        return Err(Fail::from("no memory"));
    };
    assert_eq!(rt; add(&mut alone, 0, 1), Some((4294967294, 0, 0, 10)));
    assert_eq!(rt; spent_word(alone.try_take(0)), Some(8589934590));
    assert_eq!(rt; spent_word(alone.try_take(0)), Some(8589934591));
    assert!(rt; pin_often_alone(&mut alone, 16777215));
    assert_eq!(rt; alone.pin(0, 5), Pinned::ChangesSpent);
    assert_eq!(rt; alone.into_values().as_slice(), [Some(11u64)].as_slice());
    Ok(())
}
