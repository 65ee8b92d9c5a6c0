//! A store that is used alone is a turnstile.
ghost use Rattle.std.specs.Prelude.{◌≡◌, ◌<◌, length};
ghost use Rattle.turn_store.specs.Told.{slots, TellsTake, MayGive, TellsGift};
ghost use Rattle.turn_store.specs.Alone.{words_and_values};

use crate::alone::AloneTurns;
use crate::take::{Take, Taken};
use crate::turnstile::Turnstile;
use crate::word::{LAST_GENERATION, change, generation, pin};
use std::mem;
use std::snapshot::Snapshot;

impl<V> Turnstile<V> for AloneTurns<V> {
    ghost use Rattle.turn_store.specs.Alone.{words_and_values};

    ghost told = { words_and_values };

    fn try_take(&mut self, slot: usize) -> Take<V>
        requires { slot < slots (words_and_values self.old) }
        ensures { TellsTake slot (words_and_values self.old) result (words_and_values self.new) }
    {
        let word = self.words[slot];
        self.words[slot] = word | 1;
        let number = generation(word);
        if number == LAST_GENERATION {
            return Take::Spent(word);
        }
        if word % 2 == 1 {
            return Take::Busy(word);
        }
        let value = mem::replace(&mut self.values[slot], None).unwrap();
        Take::Taken(Taken {
            slot,
            pin: pin(word),
            change: change(word),
            number,
            before: Snapshot::of(&value),
            value,
        })
    }

    fn give_back(&mut self, taken: Taken<V>)
        requires { MayGive (words_and_values self.old) taken }
        ensures { TellsGift (words_and_values self.old) taken (words_and_values self.new) }
    {
        let Taken {
            slot,
            pin: _,
            change: _,
            number: _,
            before: _,
            value,
        } = taken;
        self.words[slot] += 1;
        let empty = mem::replace(&mut self.values[slot], Some(value));
        let None = empty else { unreachable!() };
    }
}
