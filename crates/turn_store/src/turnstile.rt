//! What slots are taken from.
ghost use Rattle.std.specs.Prelude.{ℕ, ◌<◌};
ghost use Rattle.turn_store.specs.Told.{Told, slots, TellsTake, MayGive, TellsGift};

use crate::take::{Take, Taken};

/// A store of slots, as one thread uses it: shared, by a `Lane`, or for itself, as `AloneTurns`.
pub trait Turnstile<V> {
    /// A lane tells its items and what it holds, a store that is used alone its words and values.
    ghost told: { Self → Told V };

    /// Tries once, and never waits.
    fn try_take(&mut self, slot: usize) -> Take<V>
        requires { slot < slots (told self.old) }
        ensures { TellsTake slot (told self.old) result (told self.new) };

    /// Takes back what it handed out, of which only the value may have changed.
    fn give_back(&mut self, taken: Taken<V>)
        requires { MayGive (told self.old) taken }
        ensures { TellsGift (told self.old) taken (told self.new) };
}
