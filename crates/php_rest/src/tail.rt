// What is left of a list that the program's tree holds.

ghost use Rattle.std.specs.Prelude.{◌≡◌, ◌<◌, [], ◌∷◌, length, MatchBool, MatchOption};
ghost use Rattle.php_rest.specs.Tails.{left_in};

use sqlite_items::Items;

/// A list without its first elements. Contracts see what is left by `left_in`.
#[derive(Drop)]
pub struct Tail<'a, T> {
    items: &'a Items<T>,
    at: usize,
}

impl<'a, T> Tail<'a, T> {
    /// The whole list.
    pub fn new(items: &'a Items<T>) -> Tail<'a, T>
        ensures { left_in result ≡ items.now }
    {
        Tail { items, at: 0 }
    }

    /// The first element, and those behind it.
    pub fn cut(self) -> Option<(&'a T, Tail<'a, T>)>
        ensures { MatchOption result (left_in self.entry ≡ []) (λ p. left_in self.entry ≡ p.0.now ∷ left_in p.1) }
    {
        let items = self.items;
        let at = self.at;
        if at >= items.len() {
            return None;
        }
        let first = &items.as_slice()[at];
        let behind = Tail { items, at: at + 1 };
        Some((first, behind))
    }

    /// Whether nothing is left.
    pub fn is_empty(&self) -> bool
        ensures { MatchBool result (left_in self.now ≡ []) (0 < length (left_in self.now)) }
    {
        let items = self.items;
        if self.at >= items.len() {
            return true;
        }
        false
    }
}
