// The paths of a program's files.

ghost use Rattle.std.specs.Prelude.{◌≡◌, [], ◌∷◌, ◌++◌, None, OnOk, OnErr, length, position};
ghost use Rattle.std.specs.Str.{bytes_eq};

use indexmap::IndexSet;
use std::alloc::{AllocError, Global};
use std::marker::Model;

/// Paths, each once, by number from 0. Contracts see them as a list. A look-up takes the same time however many there are.
#[derive(Drop)]
pub struct PathTable {
    set: IndexSet<Vec<u8>>,
}

impl Model for PathTable {
    ghost use Rattle.std.specs.Prelude.{List, ℕ, map};

    ghost Value = { List (List ℕ) };

    ghost view = { λ paths. map (λ path. path.items) paths.set.keys };
}

impl PathTable {
    /// No path. It takes no memory.
    pub fn new(alloc: Global) -> PathTable
        ensures { result ≡ [] }
    {
        PathTable {
            set: IndexSet::new(alloc),
        }
    }

    /// The number of a path.
    pub fn number(&self, path: &[u8]) -> Option<usize>
        ensures { result ≡ position (bytes_eq path.now) self.now }
    {
        self.set.get_index_of(path)
    }

    pub fn len(&self) -> usize
        ensures { result ≡ length self.now }
    {
        self.set.len()
    }

    /// Adds a path that is not there. After an error nothing was added.
    pub fn add(&mut self, alloc: Global, path: &[u8]) -> Result<(), AllocError>
        requires { position (bytes_eq path.now) self.old ≡ None }
        ensures ok { OnOk result (self.new ≡ self.old ++ path.now ∷ []) }
        ensures err { OnErr result (self.new ≡ self.old) }
    {
        let path = Vec::from_slice(alloc, path)?;
        let _new = self.set.insert(path)?;
        Ok(())
    }
}
