// The files that were entered.

ghost use Rattle.std.specs.Prelude.{◌≡◌, [], ◌∷◌, ◌++◌, OnOk, OnErr};
ghost use Rattle.std.specs.List.{list_any};
ghost use Rattle.std.specs.Str.{bytes_eq};

use php_names::NameTable;
use sqlite_items::Items;
use std::alloc::{AllocError, Global};
use std::marker::Model;

/// The paths of the files that were entered, each as often as it was. Contracts see them as a list, the oldest first. To ask
/// for one takes the same time however many there are.
#[derive(Drop)]
pub struct Entered<'a> {
    order: Vec<&'a Items<u8>>,
    names: NameTable<()>,
}

impl<'a> Model for Entered<'a> {
    ghost use Rattle.std.specs.Prelude.{List, ℕ, map};
    ghost use Rattle.php_tables.specs.Entered.{AreTheSame, path_at};

    ghost Value = { List (List ℕ) };

    ghost view = { λ entered. map path_at entered.order.items };

    ghost invariant = { λ entered. AreTheSame entered.names (map path_at entered.order.items) };
}

impl<'a> Entered<'a> {
    /// No file was entered. It takes no memory.
    pub fn new(alloc: Global) -> Entered<'a>
        ensures { result ≡ [] }
    {
        Entered {
            order: Vec::new(alloc),
            names: NameTable::new(alloc),
        }
    }

    /// Whether a file was entered.
    pub fn has(&self, path: &[u8]) -> bool
        ensures { result ≡ list_any (λ p. bytes_eq p path.now) self.now }
    {
        self.names.get(path).is_some()
    }

    /// Notes that a file was entered. After an error nothing was noted.
    pub fn push(&mut self, alloc: Global, path: &'a Items<u8>) -> Result<(), AllocError>
        ensures ok { OnOk result (self.new ≡ self.old ++ path.now ∷ []) }
        ensures err { OnErr result (self.new ≡ self.old) }
    {
        if self.names.get(path.as_slice()).is_some() {
            self.order.push(path)?;
            return Ok(());
        }
        self.order.push(path)?;
        if self.names.add(alloc, path.as_slice(), ()).is_err() {
            let _last = self.order.pop();
            return Err(AllocError);
        }
        Ok(())
    }
}
