// The functions that were declared.

use crate::function::Function;
use php_names::{LowerName, NameTable};
use std::alloc::{AllocError, Global};

/// The functions that were declared, each name once, under their names in lower case. Contracts see them by `functions_of` as a
/// list, in the order in which they were declared. A look-up takes the same time however many there are.
#[derive(Drop)]
pub struct Functions<'a> {
    pub table: NameTable<Function<'a>>,
    pub ghost named: { IsNamed table },
}

ghost use Rattle.php_tables.specs.Named.{IsNamed};

impl<'a> Functions<'a> {
    ghost use Rattle.std.specs.Prelude.{◌≡◌, [], ◌∷◌, ◌++◌, None, OnOk, OnErr};
    ghost use Rattle.php_tables.specs.Named.{lower_name};
    ghost use Rattle.php_tables.specs.Functions.{functions_of, first_named};

    /// No function. It takes no memory.
    pub fn new(alloc: Global) -> Functions<'a>
        ensures { functions_of result ≡ [] }
    {
        Functions {
            table: NameTable::new(alloc),
        }
    }

    /// The function of a name in lower case.
    pub fn get(&self, name: &[u8]) -> Option<Function<'a>>
        ensures { result ≡ first_named name.now (functions_of self.now) }
    {
        self.table.get(name).copied()
    }

    /// Declares a function whose name no other has. After an error nothing was declared.
    pub fn add(&mut self, alloc: Global, function: Function<'a>) -> Result<(), AllocError>
        requires { first_named (lower_name function) (functions_of self.old) ≡ None }
        ensures ok { OnOk result (functions_of self.new ≡ functions_of self.old ++ function.entry ∷ []) }
        ensures err { OnErr result (functions_of self.new ≡ functions_of self.old) }
    {
        let mut name = LowerName::new(alloc);
        name.set(function.declaration.get().name.text.as_slice())?;
        self.table.add(alloc, name.as_slice(), function)?;
        Ok(())
    }
}
