// The pairs of one array beside those of another.

ghost use Rattle.std.specs.Prelude.{◌≡◌};

use crate::value::Value;
use crate::walk::Walk;
use order_map::{Key, OrderMap};

/// A walk over an array, and the array in which its keys are sought.
#[derive(Drop)]
pub(crate) struct Beside<'a> {
    left: Walk<'a>,
    right: &'a OrderMap<Value>,
}

impl<'a> Beside<'a> {
    ghost use Rattle.std.specs.Prelude.{◌≡◌, MatchOption};
    ghost use Rattle.order_map.specs.Arrays.{pairs_of};
    ghost use Rattle.php_values.specs.Data.{data_of, data_pairs, no_pairs, pair};
    ghost use Rattle.php_values.specs.Compare.{value_of};
    ghost use Rattle.php_values.specs.Looking.{optional};
    ghost use Rattle.php_values.specs.Beside.{left_of, right_of};

    pub(crate) fn new(left: &'a OrderMap<Value>, right: &'a OrderMap<Value>) -> Beside<'a>
        ensures left { left_of result ≡ data_pairs (pairs_of left.now) }
        ensures right { right_of result ≡ data_pairs (pairs_of right.now) }
    {
        Beside {
            left: Walk::new(left),
            right,
        }
    }

    // The next key of the left, its value, and the value of the right, if there is one.
    pub(crate) fn next(&mut self) -> Option<(&'a Key, &'a Value, Option<&'a Value>)>
        ensures left { MatchOption result (left_of self.old ≡ no_pairs) (λ p. left_of self.old ≡ pair p.0.now (data_of p.1.now) (left_of self.new)) }
        ensures found { MatchOption result (left_of self.old ≡ no_pairs) (λ p. optional p.2 ≡ value_of p.0.now (right_of self.old)) }
        ensures right { right_of self.new ≡ right_of self.old }
    {
        let right = self.right;
        let Some((key, value)) = self.left.next() else {
            return None;
        };
        let other = right.get(key);
        Some((key, value, other))
    }
}
