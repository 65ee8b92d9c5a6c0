// Walks over slots.

ghost use Rattle.std.specs.Prelude.{◌≡◌, [], slice_get, take, drop, filter, is_some};
ghost use Rattle.order_map.specs.Arrays.{pairs_in, full_slots};

use crate::entry::Entry;

// The first slot from one on that holds a pair.
pub fn full_from<V>(entries: &[Entry<V>], from: usize) -> Option<usize>
    ensures { result ≡ slice_get (full_slots from (drop from entries.now)) 0 }
{
    let mut at = from;
    while at < entries.len() {
        if entries[at].is_full() {
            return Some(at);
        }
        at += 1;
    }
    None
}

// How many slots at the front hold nothing, where at least so many do.
pub fn pass_over<V>(entries: &[Entry<V>], from: usize) -> usize
    requires { pairs_in (take from entries.now) ≡ [] }
    ensures { pairs_in (take result entries.now) ≡ [] }
{
    let mut at = from;
    while at < entries.len() {
        if entries[at].is_full() {
            return at;
        }
        at += 1;
    }
    at
}

// Takes out the slots that hold nothing. It takes no memory.
pub fn keep_full<V: Drop>(entries: &mut Vec<Entry<V>>)
    ensures { entries.new.items ≡ filter (λ e. is_some e.value) entries.old.items }
{
    entries.retain(|entry| entry.is_full());
}
