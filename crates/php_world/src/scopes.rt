// Names of scopes, each found by its number at once.

ghost use Rattle.std.specs.Prelude.{◌≡◌, ◌==◌, ◌<◌, length, ℕ, List, [], ◌∷◌, OnOk};
ghost use Rattle.php_world.specs.Naming.{AreDistinct};
ghost use Rattle.php_world.specs.View.{held_of, scope_at};
ghost use Rattle.php_world.specs.Slots.{base_of, after_call, count_calls, slot_in, IsBound};
ghost use Rattle.php_world.specs.declared.scopes.Item.TheVariants.{Begins};

use crate::cell::Held;
use crate::stack::Stack;
use std::alloc::{AllocError, Global};
use std::marker::Model;

/// What a name was bound to, and in which scope: 0 stands for none.
#[derive(Clone, Copy, Debug, PartialEq, Eq)]
pub struct Slot {
    pub depth: usize,
    pub held: Held,
}

/// A name that was bound, with what its slot held before; or a call that began, with how many local cells there were.
#[derive(Clone, Copy, Debug, PartialEq, Eq)]
pub enum Item {
    Named(usize, Held, Slot),
    Begins(usize),
}

/// What was bound, scope in scope. Contracts see it as a list, the newest first. A look-up takes one look at the slot of
/// its name, however many names there are; leaving a scope puts back what its names hid.
#[derive(Drop)]
pub struct Scopes {
    items: Stack<Item>,
    slots: Vec<Slot>,
    depth: usize,
}

impl Model for Scopes {
    ghost use Rattle.std.specs.Prelude.{List};
    ghost use Rattle.php_world.specs.Slots.{IsIndexed};
    ghost use Rattle.php_world.specs.declared.scopes.Item.{Item};

    ghost Value = { List Item };

    ghost view = { λ s. s.items };

    ghost invariant = { λ s. IsIndexed s.depth s.slots.items s.items };
}

/// A slot of a name that is bound in no scope.
const UNBOUND: Slot = Slot {
    depth: 0,
    held: Held::Nothing,
};

// As many slots as a number needs, and one more.
fn grow(slots: &mut Vec<Slot>, number: usize) -> Result<(), AllocError>
    ensures same { (n : ℕ) → slot_in slots.new.items n ≡ slot_in slots.old.items n }
    ensures long { OnOk result (number < length slots.new.items) }
{
    while slots.len() <= number {
        slots.push(UNBOUND)?;
    }
    Ok(())
}

impl Scopes {
    /// No name is bound. It takes no memory.
    pub fn new(alloc: Global) -> Scopes
        ensures { result ≡ [] }
    {
        Scopes {
            items: Stack::new(alloc),
            slots: Vec::new(alloc),
            depth: 1,
        }
    }

    /// What a name is bound to in the newest scope.
    pub fn get(&self, number: usize) -> Held
        ensures { (name : ℕ → List ℕ) → AreDistinct name → held_of result ≡ scope_at name self.now (name number) }
    {
        if number < self.slots.len() {
            let slot = self.slots[number];
            if slot.depth == self.depth {
                return slot.held;
            }
        }
        Held::Nothing
    }

    /// Binds a name in the newest scope.
    pub fn bind(&mut self, number: usize, held: Held) -> Result<(), AllocError>
        ensures { OnOk result (IsBound number held self.old self.new) }
    {
        grow(&mut self.slots, number)?;
        let old = self.slots[number];
        self.items.push(Item::Named(number, held, old))?;
        self.slots[number] = Slot {
            depth: self.depth,
            held,
        };
        Ok(())
    }

    /// Begins a call.
    pub fn enter(&mut self, base: usize) -> Result<(), AllocError>
        ensures { OnOk result (self.new ≡ Begins base ∷ self.old) }
    {
        let Some(depth) = self.depth.checked_add(1) else {
            return Err(AllocError);
        };
        self.items.push(Item::Begins(base))?;
        self.depth = depth;
        Ok(())
    }

    /// Ends the newest call, and tells how many local cells there were before it. Without a call all names are gone.
    pub fn leave(&mut self) -> Option<usize>
        ensures base { result ≡ base_of self.old }
        ensures after { self.new ≡ after_call self.old }
    {
        while let Some(item) = self.items.pop() {
            match item {
                Item::Begins(base) => {
                    self.depth -= 1;
                    return Some(base);
                }
                Item::Named(number, _, old) => {
                    if number < self.slots.len() {
                        self.slots[number] = old;
                    }
                }
            }
        }
        None
    }

    /// Whether no call runs.
    pub fn is_top(&self) -> bool
        ensures { result ≡ (count_calls self.now == 0) }
    {
        self.depth == 1
    }
}
