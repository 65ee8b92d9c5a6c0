//! A list that grows at its front.

ghost use Rattle.std.specs.Prelude.{◌≡◌, [], ◌∷◌, OnOk, MatchOption};

use sqlite_items::Items;
use std::alloc::{AllocError, Global};
use std::marker::Model;

/// Its elements stand in the other order. Contracts see the list.
#[derive(Drop)]
pub struct Backward<T> {
    items: Vec<T>,
}

impl<T> Model for Backward<T> {
    ghost use Rattle.std.specs.Prelude.{List, reverse};

    ghost Value = { List T };

    ghost view = { λ b. reverse b.items.items };
}

impl<T> Backward<T> {
    pub fn new(alloc: Global) -> Backward<T>
        ensures { result ≡ [] }
    {
        Backward {
            items: Vec::new(alloc),
        }
    }

    /// Takes the first element off.
    pub fn pop(&mut self) -> Option<T>
        ensures { MatchOption result ((self.old ≡ []) × (self.new ≡ [])) (λ first. self.old ≡ first ∷ self.new) }
    {
        self.items.pop()
    }

    /// The list itself, in its order.
    pub fn into_items(self) -> Items<T>
        ensures { result ≡ self }
    {
        let Backward { mut items } = self;
        items.reverse();
        Items::from_vec(items)
    }
}

impl<T: Drop> Backward<T> {
    /// Puts an element in front of the others.
    pub fn push(&mut self, item: T) -> Result<(), AllocError>
        ensures ok { OnOk result (self.new ≡ item ∷ self.old) }
    {
        self.items.push(item)?;
        Ok(())
    }
}
