// The bodies of a program.

ghost use Rattle.std.specs.Prelude.{◌≡◌, IfOk};
ghost use Rattle.app_load.specs.Entries as entry;
ghost use Rattle.php_world.specs.Naming.{Naming};
ghost use Rattle.php_rest.specs.Views.{entry_of};
ghost use Rattle.php_state.specs.Linked.{IsLinked};
ghost use Rattle.php_state.specs.declared.program.Program.{Program};
ghost use Rattle.php_bodies.specs.Look.{IsAt, look_in};
ghost use Rattle.php_bodies.specs.Whole.{AreBodies};

use crate::files::files_by_path;
use crate::one_file::FileBodies;
use crate::removed::unless_removed;
use php_names::{LowerName, NameTable};
use php_rest::Owner;
use php_state::Program;
use php_tree::stmt::Stmt;
use sqlite_items::Items;
use std::alloc::{AllocError, Global};

/// What stands at the entries of a program. `AreBodies` says of which one.
#[derive(Drop)]
pub struct Bodies<'p> {
    pub files: NameTable<FileBodies<'p>>,
}

impl<'p> Bodies<'p> {
    /// The bodies of a program.
    pub fn new(alloc: Global, program: &'p Program) -> Result<Bodies<'p>, AllocError>
        ensures { IfOk result (λ bodies. IsLinked program.now → AreBodies program.now bodies) }
    {
        let files = files_by_path(alloc, program.files.as_slice())?;
        Ok(Bodies { files })
    }

    // The statements of a file, unless it was removed.
    fn file(&self, path: &[u8]) -> Option<&'p Items<Stmt>>
        ensures { (p : Program) (t : Naming) → AreBodies p self.now → IsAt t (look_in p t (entry.file path.now)) result }
    {
        match self.files.get(path) {
            None => None,
            Some(here) => unless_removed(&here.file.statements),
        }
    }

    // The body of a function, by its name in lower case, unless it was removed.
    fn function(&self, path: &[u8], name: &[u8]) -> Option<&'p Items<Stmt>>
        ensures { (p : Program) (t : Naming) → AreBodies p self.now → IsAt t (look_in p t (entry.function path.now name.now)) result }
    {
        match self.files.get(path) {
            None => None,
            Some(here) => match here.bodies.get(name) {
                None => None,
                Some(statements) => unless_removed(statements),
            },
        }
    }

    /// The statements that stand at an entry, if some do.
    pub fn find(
        &self,
        alloc: Global,
        owner: Owner<'_>,
    ) -> Result<Option<&'p Items<Stmt>>, AllocError>
        ensures { IfOk result (λ found. (p : Program) (t : Naming) → AreBodies p self.now → IsAt t (look_in p t (entry_of owner.entry)) found) }
    {
        match owner {
            Owner::File(path) => Ok(self.file(path.as_slice())),
            Owner::Function(function) => {
                let mut name = LowerName::new(alloc);
                name.set(function.declaration.get().name.text.as_slice())?;
                Ok(self.function(function.path.as_slice(), name.as_slice()))
            }
        }
    }
}
