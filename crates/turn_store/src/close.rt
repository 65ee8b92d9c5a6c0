//! A store is closed.
ghost use Rattle.std.specs.Prelude.{◌≡◌, ℕ, ◌<◌, ◌≤◌, false, [], length, vec_capacity, slice_index_or, IfOk, IfErr};
ghost use Rattle.std.specs.Slots.{slots_items, slots_filled, slots_len, IsFull};
ghost use Rattle.turn_store.specs.Histories.{LegalHistory};
ghost use Rattle.turn_store.specs.Passes.{slot_count, first_of, opening_of, IsPassOf, items_of, held_by, IsAdminOf, changes_of};

use crate::plays::Ruling;
use crate::store::{AdminPass, Pass, SharedTurns};
use atomic_table::Closed as Parts;
use std::alloc::Global;

/// The words and values at the end, by slot. A value that a dropped pass has taken is not among them.
#[derive(Drop)]
pub struct Closed<V> {
    pub words: Vec<u64>,
    pub values: Vec<Option<V>>,
}

/// There was no memory: the arguments, untouched.
#[derive(Drop)]
pub struct CloseFault<V> {
    pub store: SharedTurns<V>,
    pub pass: Pass<V>,
    pub admin: AdminPass<V>,
}

fn read_words<V>(closed: &Parts<Option<V>, Global>, words: &mut Vec<u64>)
    requires { IsFull closed.now.words × (words.old.items ≡ []) × (slots_len closed.now.words ≡ slots_len closed.now.slots) × (slots_len closed.now.words ≤ vec_capacity words.old) }
    ensures { words.new.items ≡ slots_items closed.now.words }
{
    for i in 0..closed.slot_count() {
        words.push_reserved(closed.word(i));
    }
}

fn take_values<V>(closed: &mut Parts<Option<V>, Global>, values: &mut Vec<Option<V>>)
    requires { IsFull closed.old.slots × (values.old.items ≡ []) × (slots_len closed.old.slots ≤ vec_capacity values.old) }
    ensures values { values.new.items ≡ slots_items closed.old.slots }
    ensures empty { (slots_len closed.new.slots ≡ slots_len closed.old.slots) × ((k : ℕ) → k < slots_len closed.new.slots → slice_index_or (slots_filled closed.new.slots) k false ≡ false) }
{
    for i in 0..closed.slot_count() {
        values.push_reserved(closed.take(i));
    }
}

impl<V> SharedTurns<V> {
    /// The closing words and values. The pass's items are then known to be of one legal history of each slot.
    pub fn close(
        self,
        alloc: Global,
        mut pass: Pass<V>,
        admin: AdminPass<V>,
    ) -> Result<Closed<V>, CloseFault<V>>
        requires passes { IsPassOf self pass × IsAdminOf self admin }
        requires free { held_by pass ≡ [] }
        ensures slots { IfOk result (λ c. (length c.words.items ≡ slot_count self) × (length c.values.items ≡ slot_count self)) }
        ensures history { IfOk result (λ c. LegalHistory (first_of self) (opening_of self) (items_of pass) (changes_of admin) c.words.items c.values.items) }
        ensures untouched { IfErr result (λ f. (f.store ≡ self) × (f.pass ≡ pass) × (f.admin ≡ admin)) }
    {
        let count = self.board.slot_count();
        let Ok(mut words) = Vec::with_capacity(alloc, count) else {
            return Err(CloseFault {
                store: self,
                pass,
                admin,
            });
        };
        let Ok(mut values) = Vec::with_capacity(alloc, count) else {
            return Err(CloseFault {
                store: self,
                pass,
                admin,
            });
        };
        let AdminPass { seat } = admin;
        self.board.shared.join_seat::<Ruling>(&mut pass.seat, seat);
        let SharedTurns { board } = self;
        let Pass { seat } = pass;
        let mut closed = board.close_with(seat);
        read_words(&closed, &mut words);
        take_values(&mut closed, &mut values);
        closed.free();
        Ok(Closed { words, values })
    }
}
