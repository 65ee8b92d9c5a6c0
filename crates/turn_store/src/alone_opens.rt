//! A store that is used alone is made, pinned and opened.
ghost use Rattle.std.specs.Prelude.{◌≡◌, ℕ, ◌+◌, ◌*◌, ◌<◌, ◌≤◌, length, map, replicate, vec_capacity, [], IfOk, IfErr, Some};
ghost use Rattle.turn_store.specs.Alone.{words_of, values_of, PinsAlone};

use crate::alone::AloneTurns;
use crate::take::Pinned;
use crate::word::{LAST_CHANGE, change, next_change};
use std::alloc::Global;

fn fill<V: Drop>(slots: &mut Vec<Option<V>>, values: Vec<V>)
    requires { (slots.old.items ≡ []) × (length values.items ≤ vec_capacity slots.old) }
    ensures { slots.new.items ≡ map Some values.items }
{
    for value in values {
        slots.push_reserved(Some(value));
    }
}

impl<V: Drop> AloneTurns<V> {
    /// A slot for each value, each of the generation `first`, with no pin and not taken. The `Err` is
    /// want of memory, and has the values.
    pub fn new(alloc: Global, values: Vec<V>, first: u32) -> Result<AloneTurns<V>, Vec<V>>
        ensures words { IfOk result (λ t. words_of t ≡ replicate (length values.items) (first * 2)) }
        ensures values { IfOk result (λ t. values_of t ≡ map Some values.items) }
        ensures err { IfErr result (λ v. v.items ≡ values.items) }
    {
        let Ok(words) = Vec::from_elem(alloc, first as u64 * 2, values.len()) else {
            return Err(values);
        };
        let Ok(mut slots) = Vec::with_capacity(alloc, values.len()) else {
            return Err(values);
        };
        fill(&mut slots, values);
        Ok(AloneTurns {
            words,
            values: slots,
        })
    }
}

impl<V> AloneTurns<V> {
    /// Pins a slot to a role, 0 for none, also while the slot is taken.
    pub fn pin(&mut self, slot: usize, role: u8) -> Pinned
        requires slot { slot < length (words_of self.old) }
        requires role { role < 128 }
        ensures values { values_of self.new ≡ values_of self.old }
        ensures word { PinsAlone slot role (words_of self.old) (words_of self.new) result }
    {
        let word = self.words[slot];
        let change = change(word);
        if change == LAST_CHANGE {
            return Pinned::ChangesSpent;
        }
        self.words[slot] = word.wrapping_add(next_change(word, role));
        Pinned::Changed(change + 1)
    }

    /// The values that stand home, by slot: none where the slot's value is out.
    pub fn into_values(self) -> Vec<Option<V>>
        ensures { result.items ≡ values_of self }
    {
        let AloneTurns { words: _, values } = self;
        values
    }
}
