// Walks over the pairs of an array.

ghost use Rattle.std.specs.Prelude.{◌≡◌};
ghost use Rattle.order_map.specs.Arrays.{place_of};

use crate::value::Value;
use order_map::{Key, OrderMap, Place};

/// A comparison that comes to more pairs than this answers want of memory. Arrays that share their parts may have more
/// pairs than there is memory for, since a shared part counts each time that it is met.
pub(crate) const MAX_TURNS: u64 = 1 << 24;

/// A walk over the pairs of an array, in their order. Contracts see the pairs that are left, by `rest_of`.
#[derive(Drop)]
pub struct Walk<'a> {
    map: &'a OrderMap<Value>,
    place: Option<Place>,
    number: usize,
    ghost stands: { place ≡ place_of map.now number },
}

impl<'a> Walk<'a> {
    ghost use Rattle.std.specs.Prelude.{◌≡◌, [], ◌∷◌, MatchOption};
    ghost use Rattle.order_map.specs.Arrays.{pairs_of};
    ghost use Rattle.php_values.specs.Walks.{rest_of};

    pub fn new(map: &'a OrderMap<Value>) -> Walk<'a>
        ensures { rest_of result ≡ pairs_of map.now }
    {
        Walk {
            map,
            place: map.first(),
            number: 0,
        }
    }

    /// The next pair, if one is left.
    pub fn next(&mut self) -> Option<(&'a Key, &'a Value)>
        ensures { MatchOption result ((rest_of self.old ≡ []) × (rest_of self.new ≡ [])) (λ p. rest_of self.old ≡ (p.0.now, p.1.now) ∷ rest_of self.new) }
    {
        let map = self.map;
        if self.number >= map.len() {
            return None;
        }
        let Some(at) = self.place else {
            return None;
        };
        let (key, value) = map.pair(at);
        let place = map.next_of(at);
        self.number += 1;
        self.place = place;
        Some((key, value))
    }
}
