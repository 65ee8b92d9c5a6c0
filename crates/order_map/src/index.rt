// The index of an array: where its keys stand.

ghost use Rattle.std.specs.Prelude.{◌≡◌, ◌<◌, ◌≤◌, ◌+◌, ◌^◌, ℕ, true, false, length, slice_get, Some, OnOk, OnErr, IfSome, MatchOption};
ghost use Rattle.order_map.specs.Hashes.{bucket_of};
ghost use Rattle.order_map.specs.Chains.{IsLinked, IsIndex, slots_of, holds};

use crate::entry::Entry;
use crate::key::Key;
use std::alloc::{AllocError, Global};

// An array of so few slots has no index.
const FEW: usize = 8;

// The greatest count of slots: their numbers take 32 bits.
const MAX_SLOTS: usize = 1 << 31;

/// Buckets, each of which leads to the newest slot whose key falls into it, and each slot to the next older one of its
/// bucket: 1 and its number, or 0. Without buckets it says nothing.
#[derive(Drop)]
pub struct Index {
    pub(crate) heads: Vec<u32>,
    pub(crate) links: Vec<u32>,
    ghost small: { length links.items ≤ 2 ^ 31 },
}

impl Clone for Index {
    ghost use Rattle.std.specs.Prelude.{◌≡◌};

    ghost is_clone = { λ index copy. (copy.heads.items ≡ index.heads.items) × (copy.links.items ≡ index.links.items) };

    fn clone(&self) -> Result<Index, AllocError> {
        let heads = self.heads.clone()?;
        let links = self.links.clone()?;
        Ok(Index { heads, links })
    }
}

// The bucket of a key among some.
#[tactic(auto, using(crate::proofs::Chains::bucket_within), unfolding(crate::specs::Hashes::bucket_of))]
fn bucket(key: &Key, count: usize) -> usize
    requires { 0 < count }
    ensures value { result ≡ bucket_of count key.now }
    ensures within { result < count }
{
    key.hash() as usize & (count - 1)
}

impl Index {
    // An index without buckets.
    pub(crate) fn new(alloc: Global) -> Index
        ensures { length result.heads.items ≡ 0 }
    {
        Index {
            heads: Vec::new(alloc),
            links: Vec::new(alloc),
        }
    }

    // Links a slot, which is then the newest one of its bucket.
    fn link<V>(&mut self, entries: &[Entry<V>], slot: usize)
        requires buckets { 0 < length self.old.heads.items }
        requires inside { slot < length entries.now }
        requires room { slot < length self.old.links.items }
        requires linked { IsLinked (length self.old.heads.items) self.old.heads.items self.old.links.items (slots_of entries.now) slot }
        ensures linked { IsLinked (length self.old.heads.items) self.new.heads.items self.new.links.items (slots_of entries.now) (slot + 1) }
        ensures heads { length self.new.heads.items ≡ length self.old.heads.items }
        ensures links { length self.new.links.items ≡ length self.old.links.items }
    {
        let bucket = bucket(&entries[slot].key, self.heads.len());
        self.links[slot] = self.heads[bucket];
        self.heads[bucket] = (slot + 1) as u32;
    }

    // Links all slots anew, for other keys than before. It takes no memory.
    pub(crate) fn relink<V>(&mut self, entries: &[Entry<V>])
        requires room { 0 < length self.old.heads.items → length entries.now ≤ length self.old.links.items }
        ensures index { IsIndex self.new.heads.items self.new.links.items (slots_of entries.now) }
        ensures links { length self.new.links.items ≡ length self.old.links.items }
    {
        if self.heads.as_slice().is_empty() {
            return;
        }
        self.heads.fill(0);
        for slot in 0..entries.len() {
            self.link(entries, slot);
        }
    }

    // Makes room for one more slot. After an error the index is as before.
    pub(crate) fn make_room<V>(
        &mut self,
        alloc: Global,
        entries: &[Entry<V>],
    ) -> Result<(), AllocError>
        requires { IsIndex self.old.heads.items self.old.links.items (slots_of entries.now) }
        ensures index { IsIndex self.new.heads.items self.new.links.items (slots_of entries.now) }
        ensures room { OnOk result (0 < length self.new.heads.items → length entries.now < length self.new.links.items) }
    {
        if entries.len() < self.links.len()
            || entries.len() < FEW && self.heads.as_slice().is_empty()
        {
            return Ok(());
        }
        let slots = entries.len().max(FEW);
        if slots > MAX_SLOTS / 2 {
            return Err(AllocError);
        }
        let heads = vec![in alloc; 0; 4 * slots]?;
        let links = vec![in alloc; 0; 2 * slots]?;
        let mut grown = Index { heads, links };
        grown.relink(entries);
        *self = grown;
        Ok(())
    }

    // Links the last slot, which is new.
    pub(crate) fn note<V>(&mut self, entries: &[Entry<V>], slot: usize)
        requires last { length entries.now ≡ slot + 1 }
        requires room { 0 < length self.old.heads.items → slot < length self.old.links.items }
        requires linked { 0 < length self.old.heads.items → IsLinked (length self.old.heads.items) self.old.heads.items self.old.links.items (slots_of entries.now) slot }
        ensures { IsIndex self.new.heads.items self.new.links.items (slots_of entries.now) }
    {
        if self.heads.as_slice().is_empty() {
            return;
        }
        self.link(entries, slot);
    }

    // Unlinks the last slot, which is then taken off.
    pub(crate) fn forget<V>(&mut self, entries: &[Entry<V>], slot: usize)
        requires last { length entries.now ≡ slot + 1 }
        requires index { IsIndex self.old.heads.items self.old.links.items (slots_of entries.now) }
        ensures { 0 < length self.new.heads.items → IsLinked (length self.new.heads.items) self.new.heads.items self.new.links.items (slots_of entries.now) slot }
    {
        if self.heads.as_slice().is_empty() {
            return;
        }
        let bucket = bucket(&entries[slot].key, self.heads.len());
        self.heads[bucket] = self.links[slot];
    }

    // The slot that holds a key's pair, by its bucket.
    fn seek<V>(&self, entries: &[Entry<V>], key: &Key) -> Option<usize>
        requires buckets { 0 < length self.now.heads.items }
        requires index { IsIndex self.now.heads.items self.now.links.items (slots_of entries.now) }
        ensures { MatchOption result ((i : ℕ) → holds key.now (slice_get entries.now i) ≡ false) (λ i. holds key.now (slice_get entries.now i) ≡ true) }
    {
        let mut at = self.heads[bucket(key, self.heads.len())];
        while at != 0 {
            let slot = at as usize - 1;
            if entries[slot].holds(key) {
                return Some(slot);
            }
            at = self.links[slot];
        }
        None
    }

    // The slot that holds a key's pair.
    pub(crate) fn find<V>(&self, entries: &[Entry<V>], key: &Key) -> Option<usize>
        requires { IsIndex self.now.heads.items self.now.links.items (slots_of entries.now) }
        ensures { MatchOption result ((i : ℕ) → holds key.now (slice_get entries.now i) ≡ false) (λ i. holds key.now (slice_get entries.now i) ≡ true) }
    {
        if let Some(slot) = guess(entries, key) {
            return Some(slot);
        }
        if self.heads.as_slice().is_empty() {
            return scan(entries, key);
        }
        self.seek(entries, key)
    }
}

// A number key's pair where it stands at its own number, as in a list.
fn guess<V>(entries: &[Entry<V>], key: &Key) -> Option<usize>
    ensures { IfSome result (λ i. holds key.now (slice_get entries.now i) ≡ true) }
{
    let Key::Int(n) = key else {
        return None;
    };
    let slot = n.cast_unsigned() as usize;
    match entries.get(slot) {
        Some(entry) if entry.holds(key) => Some(slot),
        _ => None,
    }
}

// The slot that holds a key's pair, by a look at each.
fn scan<V>(entries: &[Entry<V>], key: &Key) -> Option<usize>
    ensures { MatchOption result ((i : ℕ) → holds key.now (slice_get entries.now i) ≡ false) (λ i. holds key.now (slice_get entries.now i) ≡ true) }
{
    for (i, entry) in entries.iter().enumerate() {
        if entry.holds(key) {
            return Some(i);
        }
    }
    None
}
