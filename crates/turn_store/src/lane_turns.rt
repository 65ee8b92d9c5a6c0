//! A lane is a turnstile.
ghost use Rattle.std.specs.Prelude.{◌≡◌, ◌<◌};
ghost use Rattle.turn_store.specs.Told.{slots, TellsTake, MayGive, TellsGift};
ghost use Rattle.turn_store.specs.Lanes.{told_by};

use crate::lane::Lane;
use crate::take::{Take, Taken};
use crate::turnstile::Turnstile;

impl<'s, V> Turnstile<V> for Lane<'s, V> {
    ghost use Rattle.turn_store.specs.Lanes.{told_by};

    ghost told = { told_by };

    fn try_take(&mut self, slot: usize) -> Take<V>
        requires { slot < slots (told_by self.old) }
        ensures { TellsTake slot (told_by self.old) result (told_by self.new) }
    {
        self.store.try_take(&mut self.pass, slot)
    }

    fn give_back(&mut self, taken: Taken<V>)
        requires { MayGive (told_by self.old) taken }
        ensures { TellsGift (told_by self.old) taken (told_by self.new) }
    {
        self.store.give_back(&mut self.pass, taken)
    }
}
