//! Slots are taken and given back.
ghost use Rattle.std.specs.Prelude.{◌≡◌, ◌<◌};
ghost use Rattle.turn_store.specs.Items.{InHeld};
ghost use Rattle.turn_store.specs.Passes.{slot_count, IsPassOf, held_by};
ghost use Rattle.turn_store.specs.Takes.{Takes, Gives};
ghost use Rattle.turn_store.specs.Told.{hold_of};

use crate::plays::{Fetch, Release, TakeTurn};
use crate::store::{Pass, SharedTurns};
use crate::take::{Take, Taken};
use crate::word::{LAST_GENERATION, change, generation, pin};
use std::snapshot::Snapshot;

impl<V> SharedTurns<V> {
    /// Tries once, by one atomic step, which also reads the pin, the change number and the generation.
    /// A slot that this pass holds itself is busy too.
    pub fn try_take(&self, pass: &mut Pass<V>, slot: usize) -> Take<V>
        requires pass { IsPassOf self.now pass.old }
        requires slot { slot < slot_count self.now }
        ensures pass { IsPassOf self.now pass.new }
        ensures take { Takes slot pass.old pass.new result }
    {
        let shared = &self.board.shared;
        let word = shared.fetch_or::<TakeTurn>(&mut pass.seat, slot, 1);
        let number = generation(word);
        if number == LAST_GENERATION {
            return Take::Spent(word);
        }
        if word % 2 == 1 {
            return Take::Busy(word);
        }
        let value = shared.exchange(&mut pass.seat, slot, None).unwrap();
        Take::Taken(Taken {
            slot,
            pin: pin(word),
            change: change(word),
            number,
            before: Snapshot::of(&value),
            value,
        })
    }

    /// Puts the value home and counts the release, by one atomic step.
    pub fn give_back(&self, pass: &mut Pass<V>, taken: Taken<V>)
        requires pass { IsPassOf self.now pass.old }
        requires slot { taken.slot < slot_count self.now }
        requires held { InHeld (hold_of taken) (held_by pass.old) }
        ensures pass { IsPassOf self.now pass.new }
        ensures given { Gives taken pass.old pass.new }
    {
        let shared = &self.board.shared;
        let Taken {
            slot,
            pin: _,
            change: _,
            number: _,
            before: _,
            value,
        } = taken;
        shared.load::<Fetch>(&mut pass.seat, slot);
        let empty = shared.exchange(&mut pass.seat, slot, Some(value));
        let None = empty else { unreachable!() };
        shared.fetch_add::<Release>(&mut pass.seat, slot, 1);
    }
}
