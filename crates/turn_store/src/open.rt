//! A store is made.
ghost use Rattle.std.specs.Prelude.{◌≡◌, ◌<◌, [], length, map, IfOk, Some};
ghost use Rattle.turn_store.specs.Rule.{beginner};
ghost use Rattle.turn_store.specs.Passes.{slot_count, first_of, opening_of, IsPassOf, items_of, held_by, IsAdminOf, changes_of};

use crate::plays::Another;
use crate::store::{AdminPass, Board, Pass, SharedTurns};
use crate::view::{Opening, View};
use atomic_table::{Refused, Seat, Table};
use std::alloc::{AllocError, Global};
use std::snapshot::Snapshot;

fn slots_of<V: Drop>(alloc: Global, values: Vec<V>) -> Result<Vec<Option<V>>, AllocError>
    ensures { IfOk result (λ v. v.items ≡ map Some values.items) }
{
    let mut slots = Vec::with_capacity(alloc, values.len())?;
    for value in values {
        slots.push(Some(value))?;
    }
    Ok(slots)
}

fn lay<V: Drop>(
    alloc: Global,
    values: Vec<V>,
    first: u32,
) -> Result<(Board<V>, Seat<Option<V>, View<V>>), AllocError>
    requires { 0 < length values.items }
    ensures { IfOk result (λ t. (t.0.shared.table_id.words ≡ length values.items) × (t.0.shared.table_id.slots ≡ length values.items) × (t.1.table_id ≡ t.0.shared.table_id) × (t.1.me ≡ (beginner, [])) × (t.0.shared.key.first ≡ first) × (t.0.shared.key.values.value ≡ values)) }
{
    let about = Opening {
        first,
        values: Snapshot::of(&values),
    };
    let words = Vec::from_elem(alloc, first as u64 * 2, values.len())?;
    let slots = slots_of(alloc, values)?;
    match Table::new(alloc, words.as_slice(), slots, &about) {
        Ok(laid) => Ok(laid),
        Err(Refused { slots: _ }) => Err(AllocError),
    }
}

impl<V: Drop> SharedTurns<V> {
    /// A store with a slot for each value, each of the generation `first`, with no pin and not taken.
    pub fn new(
        alloc: Global,
        values: Vec<V>,
        first: u32,
    ) -> Result<(SharedTurns<V>, Pass<V>, AdminPass<V>), AllocError>
        requires { 0 < length values.items }
        ensures slots { IfOk result (λ t. slot_count t.0 ≡ length values.items) }
        ensures opening { IfOk result (λ t. (first_of t.0 ≡ first) × (opening_of t.0 ≡ values.items)) }
        ensures pass { IfOk result (λ t. IsPassOf t.0 t.1 × (items_of t.1 ≡ []) × (held_by t.1 ≡ [])) }
        ensures admin { IfOk result (λ t. IsAdminOf t.0 t.2 × (changes_of t.2 ≡ [])) }
    {
        let (board, mut seat) = lay(alloc, values, first)?;
        let pass = Pass {
            seat: board.shared.split_seat::<Another>(&mut seat),
        };
        Ok((SharedTurns { board }, pass, AdminPass { seat }))
    }
}
