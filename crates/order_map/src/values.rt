// The values of an array that is taken apart.

ghost use Rattle.std.specs.Prelude.{◌≡◌, [], ◌∷◌, ◌++◌, IfNone, MatchOption, vec_len};
ghost use Rattle.order_map.specs.Arrays.{pairs_in};
ghost use Rattle.order_map.specs.Taken.{values_of, values_left};

use crate::entry::Entry;

/// The values of an array that was taken apart, which come from the last to the first. This serves to let them go one by
/// one, where a value may itself be an array and dropping it at once would be a recursion. Contracts see the values that
/// are left in the order of their keys, by `values_left`.
#[derive(Drop)]
pub struct Values<V> {
    rest: Vec<Entry<V>>,
}

// The value of the last entry that has one. It and those behind it are taken off.
fn pop_value<V>(rest: &mut Vec<Entry<V>>) -> Option<V>
    ensures value { MatchOption result (values_of (pairs_in rest.old.items) ≡ []) (λ v. values_of (pairs_in rest.old.items) ≡ values_of (pairs_in rest.new.items) ++ v ∷ []) }
    ensures empty { IfNone result (vec_len rest.new ≡ 0) }
{
    while let Some(entry) = rest.pop() {
        let Entry { key, value } = entry;
        drop(key);
        match value {
            Some(value) => return Some(value),
            None => (),
        }
    }
    None
}

impl<V> Values<V> {
    pub(crate) fn new(rest: Vec<Entry<V>>) -> Values<V>
        ensures { values_left result ≡ values_of (pairs_in rest.items) }
    {
        Values { rest }
    }

    /// The last value, and those before it. Where none is left, the memory of the array is freed.
    pub fn next(self) -> Option<(V, Values<V>)>
        ensures { MatchOption result (values_left self ≡ []) (λ p. values_left self ≡ values_left p.1 ++ p.0 ∷ []) }
    {
        let Values { mut rest } = self;
        match pop_value(&mut rest) {
            Some(value) => Some((value, Values { rest })),
            None => {
                rest.destroy_empty();
                None
            }
        }
    }
}
