//! The administrator pins slots.
ghost use Rattle.std.specs.Prelude.{◌≡◌, ◌<◌};
ghost use Rattle.turn_store.specs.Passes.{slot_count, IsAdminOf, changes_of};
ghost use Rattle.turn_store.specs.Takes.{Pins};

use crate::plays::{Know, Pin};
use crate::store::{AdminPass, SharedTurns};
use crate::take::Pinned;
use crate::word::{LAST_CHANGE, change, next_change};

impl<V> SharedTurns<V> {
    /// Pins a slot to a role, 0 for none, by one atomic step, also while the slot is taken:
    /// whoever holds it keeps what its take read, and the next take reads the new pin.
    pub fn pin(&self, admin: &mut AdminPass<V>, slot: usize, role: u8) -> Pinned
        requires admin { IsAdminOf self.now admin.old }
        requires slot { slot < slot_count self.now }
        requires role { role < 128 }
        ensures admin { IsAdminOf self.now admin.new }
        ensures pinned { Pins slot role (changes_of admin.old) (changes_of admin.new) result }
    {
        let shared = &self.board.shared;
        // only this pass changes the pin and the change number, so they stay until the next step
        let word = shared.load::<Know>(&mut admin.seat, slot);
        let change = change(word);
        if change == LAST_CHANGE {
            return Pinned::ChangesSpent;
        }
        shared.fetch_add::<Pin>(&mut admin.seat, slot, next_change(word, role));
        Pinned::Changed(change + 1)
    }
}
