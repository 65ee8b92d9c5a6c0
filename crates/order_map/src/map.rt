// Arrays in the order in which their keys came.
#![tactic(auto, unfolding(crate::specs::Arrays::pairs_of, crate::specs::Arrays::next_of, crate::specs::Arrays::place_of))]

ghost use Rattle.std.specs.Prelude.{◌≡◌, ◌↔◌, ◌<◌, ◌≤◌, ◌+◌, ◌-◌, [], ◌∷◌, ◌++◌, ℕ, true, false, max, pos, length, slice_get, take, option_to_list, IsTrue, IsSome, Some, None, Err, is_some, if◌then◌else◌, IfOk, OnOk, OnErr, MatchOption};
ghost use Rattle.std.specs.Option.{option_copied};
ghost use Rattle.order_map.specs.Keys.{all_below, next_after, spent};
ghost use Rattle.order_map.specs.Arrays.{pairs_of, next_of, place_of, IsPlace, IsArray, IsSameArray, IsCopy, keys_of, pairs_in, look, put, without};
ghost use Rattle.order_map.specs.Chains.{holds};
ghost use Rattle.order_map.specs.Taken.{values_of, values_left};
ghost use Rattle.std.specs.declared.alloc.Global.{Global};
ghost use Rattle.order_map.specs.declared.key.Key.TheVariants.{Int};

use crate::entry::Entry;
use crate::index::Index;
use crate::key::Key;
use crate::place::Place;
use crate::slots::{full_from, keep_full, pass_over};
use crate::values::Values;
use std::alloc::{AllocError, Global};
use std::marker::Model;

/// The next key of an array that has no free number key left.
const SPENT: u64 = 1 << 63;

// Slots that hold nothing stay where there are no more than this.
const FEW: usize = 8;

/// Why nothing was appended. `KeysSpent` comes exactly where the next key is spent; `Memory` may come at any time.
#[derive(Clone, Copy, Debug, PartialEq, Eq)]
pub enum AppendFault {
    KeysSpent,
    Memory,
}

/// Pairs of a key and a value in the order in which the keys came, and the next key: above every number key, or spent.
/// Contracts see the pairs as a list, by `pairs_of`, and the next key as a number, by `next_of`.
#[derive(Drop)]
pub struct OrderMap<V> {
    entries: Vec<Entry<V>>,
    index: Index,
    // how many entries have a value
    count: usize,
    // so many entries at the front have none
    passed: usize,
    next: u64,
}

impl<V> Model for OrderMap<V> {
    ghost use Rattle.std.specs.Prelude.{take};
    ghost use Rattle.order_map.specs.MapView.{MapView, map_view};
    ghost use Rattle.order_map.specs.Arrays.{keys_of, pairs_in};
    ghost use Rattle.order_map.specs.Chains.{slots_of};
    ghost use Rattle.order_map.specs.Sound.{IsSound};

    ghost Value = { MapView V };

    ghost view = { λ m. map_view m.entries.items m.next };

    ghost invariant = { λ m. IsSound (slots_of m.entries.items) (keys_of (pairs_in m.entries.items)) (keys_of (pairs_in (take m.passed m.entries.items))) m.count m.next m.index.heads.items m.index.links.items };
}

impl<V> OrderMap<V> {
    /// An array with no pair, whose next key is 0. It takes no memory.
    pub fn new(alloc: Global) -> OrderMap<V>
        ensures pairs { pairs_of result ≡ [] }
        ensures next { next_of result ≡ 0 }
    {
        OrderMap {
            entries: Vec::new(alloc),
            index: Index::new(alloc),
            count: 0,
            passed: 0,
            next: 0,
        }
    }

    /// How many pairs there are.
    pub fn len(&self) -> usize
        ensures count { result ≡ length (pairs_of self.now) }
        ensures array { IsArray (pairs_of self.now) (next_of self.now) }
    {
        self.count
    }

    // The slot that holds a key's pair.
    fn find(&self, key: &Key) -> Option<usize>
        ensures { MatchOption result ((i : ℕ) → holds key.now (slice_get self.now.entries i) ≡ false) (λ i. holds key.now (slice_get self.now.entries i) ≡ true) }
    {
        self.index.find(self.entries.as_slice(), key)
    }

    /// The value of a key.
    pub fn get(&self, key: &Key) -> Option<&V>
        ensures { option_copied result ≡ look key.now (pairs_of self.now) }
    {
        match self.find(key) {
            Some(slot) => self.entries[slot].value.as_ref(),
            None => None,
        }
    }

    /// The next key, or `None` where it is spent.
    pub fn next_key(&self) -> Option<i64>
        ensures { MatchOption result (next_of self.now ≡ spent) (λ n. n ≡ pos (next_of self.now)) }
    {
        if self.next < SPENT {
            Some(self.next as i64)
        } else {
            None
        }
    }
}

impl<V> OrderMap<V> {
    /// Takes the array apart. Its keys are dropped, and its values can be let go one by one.
    pub fn into_values(self) -> Values<V>
        ensures { values_left result ≡ values_of (pairs_of self) }
    {
        let OrderMap {
            entries,
            index,
            count: _,
            passed: _,
            next: _,
        } = self;
        drop(index);
        Values::new(entries)
    }

    /// The allocator that the array was made with. There is but one of its type.
    pub fn allocator(&self) -> Global
        ensures { (other : Global) → result ≡ other }
    {
        *self.entries.allocator()
    }
}

impl<V> OrderMap<V> {
    /// The place of the first pair.
    pub fn first(&self) -> Option<Place>
        ensures { result ≡ place_of self.now 0 }
    {
        match full_from(self.entries.as_slice(), self.passed) {
            Some(slot) => Some(Place::new(slot)),
            None => None,
        }
    }

    /// The place of the pair behind one.
    pub fn next_of(&self, place: Place) -> Option<Place>
        requires { IsPlace self.now place }
        ensures { (i : ℕ) → place_of self.now i ≡ Some place → result ≡ place_of self.now (i + 1) }
    {
        match full_from(self.entries.as_slice(), place.at() + 1) {
            Some(slot) => Some(Place::new(slot)),
            None => None,
        }
    }

    /// The pair at a place.
    pub fn pair(&self, place: Place) -> (&Key, &V)
        requires { IsPlace self.now place }
        ensures { (i : ℕ) → place_of self.now i ≡ Some place → Some (result.0.now, result.1.now) ≡ slice_get (pairs_of self.now) i }
    {
        self.entries[place.at()].pair()
    }

    /// Lowers the next key by 1.
    pub fn lower_next(&mut self)
        requires number { 0 < next_of self.old }
        requires free { next_of self.old < spent }
        requires unused { IsTrue (all_below (next_of self.old - 1) (keys_of (pairs_of self.old))) }
        ensures pairs { pairs_of self.new ≡ pairs_of self.old }
        ensures next { next_of self.new ≡ next_of self.old - 1 }
    {
        self.next -= 1;
    }

    /// Raises the next key to a number that is greater, where it is; 2 to the power of 63 says that it is spent.
    pub fn raise_next(&mut self, next: u64)
        requires { next ≤ spent }
        ensures pairs { pairs_of self.new ≡ pairs_of self.old }
        ensures next { next_of self.new ≡ max (next_of self.old) next }
    {
        if self.next < next {
            self.next = next;
        }
    }

    // Puts another value in the place of a key's, which is given back.
    fn exchange(&mut self, key: &Key, slot: usize, value: V) -> Option<V>
        requires { holds key.now (slice_get self.old.entries slot) ≡ true }
        ensures value { result ≡ look key.now (pairs_of self.old) }
        ensures found { IsSome result }
        ensures stays { next_after key.now (next_of self.old) ≡ next_of self.old }
        ensures pairs { pairs_of self.new ≡ put key.now value (pairs_of self.old) }
        ensures next { next_of self.new ≡ next_of self.old }
    {
        self.entries[slot].exchange(Some(value))
    }

    // Takes a key's value out of its slot.
    fn cut(&mut self, key: &Key, slot: usize) -> Option<V>
        requires { holds key.now (slice_get self.old.entries slot) ≡ true }
        ensures value { result ≡ look key.now (pairs_of self.old) }
        ensures pairs { pairs_of self.new ≡ without key.now (pairs_of self.old) }
        ensures next { next_of self.new ≡ next_of self.old }
    {
        let value = self.entries[slot].exchange(None);
        self.count -= 1;
        value
    }

    // Passes over the slots at the front that hold nothing, once they do.
    fn advance(&mut self, slot: usize)
        ensures { IsSameArray self.old self.new }
    {
        if slot == self.passed {
            self.passed = pass_over(self.entries.as_slice(), slot);
        }
    }
}

// The next key after a key was set.
fn raised(key: &Key, next: u64) -> u64
    requires { next ≤ spent }
    ensures value { result ≡ next_after key.now next }
    ensures within { result ≤ spent }
{
    match key {
        Key::Text(_) => next,
        Key::Int(n) => {
            if *n < 0 {
                return next;
            }
            next.max(*n as u64 + 1)
        }
    }
}

impl<V: Drop> OrderMap<V> {
    // Closes the list once most slots hold nothing. It takes no memory.
    fn close(&mut self)
        ensures { IsSameArray self.old self.new }
    {
        let slots = self.entries.len();
        if slots <= FEW || slots / 2 <= self.count {
            return;
        }
        keep_full(&mut self.entries);
        self.passed = 0;
        self.index.relink(self.entries.as_slice());
    }

    // Takes off the last slot.
    fn pop_slot(&mut self) -> Option<Entry<V>>
        ensures entries { self.old.entries ≡ self.new.entries ++ option_to_list result }
        ensures none { result ≡ None → self.old.entries ≡ [] }
        ensures next { next_of self.new ≡ next_of self.old }
    {
        if self.entries.as_slice().is_empty() {
            return None;
        }
        let slot = self.entries.len() - 1;
        self.index.forget(self.entries.as_slice(), slot);
        self.count -= self.entries[slot].held();
        self.entries.pop()
    }

    /// The last pair, which is taken out. The next key stays.
    pub fn pop(&mut self) -> Option<(Key, V)>
        ensures pairs { MatchOption result ((pairs_of self.old ≡ []) × (pairs_of self.new ≡ [])) (λ p. pairs_of self.old ≡ pairs_of self.new ++ (p.0, p.1) ∷ []) }
        ensures next { next_of self.new ≡ next_of self.old }
    {
        while let Some(entry) = self.pop_slot() {
            let Entry { key, value } = entry;
            if let Some(value) = value {
                return Some((key, value));
            }
        }
        None
    }

    // Adds a pair at the end, whose key is not there yet. After an error nothing has changed.
    fn push(&mut self, key: Key, value: V) -> Result<(), AllocError>
        requires { look key (pairs_of self.old) ≡ None }
        ensures pairs { OnOk result (pairs_of self.new ≡ pairs_of self.old ++ (key, value) ∷ []) }
        ensures next { OnOk result (next_of self.new ≡ next_after key (next_of self.old)) }
        ensures err { OnErr result (IsSameArray self.old self.new) }
    {
        let alloc = *self.entries.allocator();
        self.index.make_room(alloc, self.entries.as_slice())?;
        let next = raised(&key, self.next);
        let slot = self.entries.len();
        let entry = Entry {
            key,
            value: Some(value),
        };
        self.entries.push(entry)?;
        self.index.note(self.entries.as_slice(), slot);
        self.count += 1;
        self.passed = self.passed.min(slot);
        self.next = next;
        Ok(())
    }

    /// Puts a value in the place of that of a key, which is given back, where the key is there. The next key stays.
    pub fn replace(&mut self, key: &Key, value: V) -> Option<V>
        ensures found { result ≡ look key.now (pairs_of self.old) }
        ensures pairs { pairs_of self.new ≡ (if is_some result then put key.now value (pairs_of self.old) else pairs_of self.old) }
        ensures next { next_of self.new ≡ next_of self.old }
    {
        let Some(slot) = self.find(key) else {
            return None;
        };
        self.exchange(key, slot, value)
    }

    /// Sets the value of a key, in its place or at the end, and gives its old value. After an error nothing has changed.
    pub fn set(&mut self, key: Key, value: V) -> Result<Option<V>, AllocError>
        ensures old { IfOk result (λ old. old ≡ look key (pairs_of self.old)) }
        ensures pairs { OnOk result (pairs_of self.new ≡ put key value (pairs_of self.old)) }
        ensures next { OnOk result (next_of self.new ≡ next_after key (next_of self.old)) }
        ensures err { OnErr result (IsSameArray self.old self.new) }
    {
        let Some(slot) = self.find(&key) else {
            self.push(key, value)?;
            return Ok(None);
        };
        Ok(self.exchange(&key, slot, value))
    }

    /// Adds a value at the end under the next key, and gives that key. After an error nothing has changed.
    pub fn append(&mut self, value: V) -> Result<i64, AppendFault>
        ensures key { IfOk result (λ n. n ≡ pos (next_of self.old)) }
        ensures pairs { OnOk result (pairs_of self.new ≡ pairs_of self.old ++ (Int (pos (next_of self.old)), value) ∷ []) }
        ensures next { OnOk result (next_of self.new ≡ next_of self.old + 1) }
        ensures spent { (result ≡ Err AppendFault.KeysSpent) ↔ (next_of self.old ≡ spent) }
        ensures err { OnErr result (IsSameArray self.old self.new) }
    {
        if self.next >= SPENT {
            return Err(AppendFault::KeysSpent);
        }
        let n = self.next as i64;
        match self.push(Key::Int(n), value) {
            Ok(()) => Ok(n),
            Err(_) => Err(AppendFault::Memory),
        }
    }

    /// Takes out the pair of a key, and gives its value. The other pairs keep their order; the next key stays.
    pub fn remove(&mut self, key: &Key) -> Option<V>
        ensures value { result ≡ look key.now (pairs_of self.old) }
        ensures pairs { pairs_of self.new ≡ without key.now (pairs_of self.old) }
        ensures next { next_of self.new ≡ next_of self.old }
    {
        let Some(slot) = self.find(key) else {
            return None;
        };
        let value = self.cut(key, slot);
        self.advance(slot);
        self.close();
        value
    }
}

impl<V: Clone> Clone for OrderMap<V> {
    ghost is_clone = { λ map copy. IsCopy V.is_clone map copy };

    /// The same keys in the same order, a copy of each value, and the same next key.
    fn clone(&self) -> Result<OrderMap<V>, AllocError> {
        let entries = self.entries.clone()?;
        let index = self.index.clone()?;
        let count = self.count;
        let passed = self.passed;
        let next = self.next;
        Ok(OrderMap {
            entries,
            index,
            count,
            passed,
            next,
        })
    }
}
