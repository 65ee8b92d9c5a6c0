// A file of a program.

ghost use Rattle.std.specs.Prelude.{◌≡◌, IfOk};
ghost use Rattle.php_bodies.specs.Files.{Holds};

use crate::named::bodies_by_name;
use php_names::NameTable;
use php_state::ProgramFile;
use php_tree::stmt::Stmt;
use sqlite_items::Items;
use std::alloc::{AllocError, Global};

/// A file, and the bodies of its functions by their names.
#[derive(Drop)]
pub struct FileBodies<'p> {
    pub file: &'p ProgramFile,
    pub bodies: NameTable<&'p Items<Stmt>>,
}

// The bodies of a file.
pub(crate) fn file_bodies<'p>(
    alloc: Global,
    file: &'p ProgramFile,
) -> Result<FileBodies<'p>, AllocError>
    ensures same { IfOk result (λ bodies. bodies.file.now ≡ file.now) }
    ensures holds { IfOk result (λ bodies. Holds bodies) }
{
    let bodies = bodies_by_name(alloc, file.statements.as_slice())?;
    Ok(FileBodies { file, bodies })
}
