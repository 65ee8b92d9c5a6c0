//! A lane that waits for a slot.
ghost use Rattle.std.specs.Prelude.{◌≡◌, ◌<◌};
ghost use Rattle.turn_store.specs.Passes.{slot_count};
ghost use Rattle.turn_store.specs.Waits.{Waits};

use crate::lane::Lane;
use crate::take::{Take, TakeWait};
use std::sync::Wait;

impl<'s, V> Lane<'s, V> {
    /// Tries again while the slot is busy. Each try that finds it busy adds an item.
    /// On a slot that this lane holds itself it does not return.
    pub fn take<R: Wait>(&mut self, rt: &R, slot: usize) -> TakeWait<V>
        requires { slot < slot_count self.old.store.now }
        ensures store { self.new.store ≡ self.old.store }
        ensures take { Waits slot self.old.pass self.new.pass result }
    {
        for _ in rt.forever() {
            match self.store.try_take(&mut self.pass, slot) {
                Take::Taken(taken) => return TakeWait::Taken(taken),
                Take::Spent(word) => return TakeWait::Spent(word),
                Take::Busy(_) => continue,
            }
        }
        unreachable!()
    }
}
