// Tables by name.

ghost use Rattle.std.specs.Prelude.{◌≡◌, [], ◌∷◌, ◌++◌, length, None, OnOk, OnErr};
ghost use Rattle.std.specs.Option.{option_copied};
ghost use Rattle.php_names.specs.Tables.{found};

use indexmap::IndexMap;
use std::alloc::{AllocError, Global};
use std::marker::Model;

/// Things with names, each name once. Contracts see them as a list of pairs, in the order in which they came. A look-up hashes
/// the name once, and takes the same time however many names there are.
#[derive(Drop)]
pub struct NameTable<V> {
    items: IndexMap<Vec<u8>, V>,
}

impl<V> Model for NameTable<V> {
    ghost use Rattle.std.specs.Prelude.{List, ℕ, map};

    ghost Value = { List (List ℕ × V) };

    ghost view = { λ table. map (λ e. (e.0.items, e.1)) table.items.entries };
}

impl<V> NameTable<V> {
    /// No name. It takes no memory.
    pub fn new(alloc: Global) -> NameTable<V>
        ensures { result ≡ [] }
    {
        NameTable {
            items: IndexMap::new(alloc),
        }
    }

    /// What has a name.
    pub fn get(&self, name: &[u8]) -> Option<&V>
        ensures { option_copied result ≡ found name.now self.now }
    {
        self.items.get(name)
    }

    pub fn len(&self) -> usize
        ensures { result ≡ length self.now }
    {
        self.items.len()
    }
}

impl<V: Drop> NameTable<V> {
    /// Adds something under a name that nothing has. After an error nothing was added.
    pub fn add(&mut self, alloc: Global, name: &[u8], value: V) -> Result<(), AllocError>
        requires { found name.now self.old ≡ None }
        ensures ok { OnOk result (self.new ≡ self.old ++ (name.now, value) ∷ []) }
        ensures err { OnErr result (self.new ≡ self.old) }
    {
        let name = Vec::from_slice(alloc, name)?;
        self.items.insert(name, value)?;
        Ok(())
    }
}
