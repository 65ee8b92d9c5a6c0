// Loops, and the pairs of an array over which a `foreach` goes.

ghost use Rattle.std.specs.Prelude.{◌≡◌};
ghost use Rattle.order_map.specs.Arrays.{place_of};

use order_map::{Key, Place};
use php_tree::expr::Expr;
use php_tree::stmt::Stmt;
use php_values::{ArrayValue, Value};
use sqlite_items::{Boxed, Items};

/// A loop whose turns cost a tick each, by its parts and its line.
#[derive(Clone, Copy)]
pub enum Loop<'a> {
    While(&'a Boxed<Expr>, &'a Items<Stmt>, u32),
    Do(&'a Items<Stmt>, &'a Boxed<Expr>, u32),
    /// Its tests, its steps and its body.
    For(&'a Items<Expr>, &'a Items<Expr>, &'a Items<Stmt>, u32),
}

/// A `foreach`: the variable of the key, if there is one, that of the element, both by number, and the body.
#[derive(Clone, Copy)]
pub struct Each<'a> {
    pub key: Option<u32>,
    pub element: u32,
    pub body: &'a Items<Stmt>,
}

/// The pairs of an array that are left, in their order. The array is shared, so that it stays as it was. Contracts see
/// the pairs by `turns_of`.
#[derive(Drop)]
pub struct Turns {
    array: ArrayValue,
    place: Option<Place>,
    number: usize,
    ghost stands: { place ≡ place_of array.map.value number },
}

impl Turns {
    ghost use Rattle.std.specs.Prelude.{◌≡◌, ◌+◌, [], ◌∷◌, MatchOption, Some, drop};
    ghost use Rattle.order_map.specs.Arrays.{place_of};
    ghost use Rattle.order_map.specs.Arrays.{pairs_of};
    ghost use Rattle.php_rest.specs.Pairs.{pairs_left};

    pub fn new(array: ArrayValue) -> Turns
        ensures { pairs_left result ≡ pairs_of array.map.value }
    {
        let place = array.map.as_ref().first();
        Turns {
            array,
            place,
            number: 0,
        }
    }
    /// The pair of the next turn, if one is left.
    pub fn pair(&self) -> Option<(&Key, &Value)>
        ensures { MatchOption result (pairs_left self.now ≡ []) (λ p. pairs_left self.now ≡ (p.0.now, p.1.now) ∷ drop 1 (pairs_left self.now)) }
    {
        let map = self.array.map.as_ref();
        if self.number >= map.len() {
            return None;
        }
        let Some(at) = self.place else {
            return None;
        };
        Some(map.pair(at))
    }

    // The place of the pair behind the next one.
    fn place_behind(&self, at: Place) -> Option<Place>
        requires { place_of self.now.array.map.value self.now.number ≡ Some at }
        ensures { result ≡ place_of self.now.array.map.value (self.now.number + 1) }
    {
        self.array.map.as_ref().next_of(at)
    }

    /// The turns behind the next one.
    pub fn behind(self) -> Turns
        ensures { pairs_left result ≡ drop 1 (pairs_left self) }
    {
        if self.number >= self.array.map.as_ref().len() {
            return self;
        }
        let Some(at) = self.place else {
            return self;
        };
        let place = self.place_behind(at);
        let number = self.number + 1;
        let Turns { array, .. } = self;
        Turns {
            array,
            place,
            number,
        }
    }
}
