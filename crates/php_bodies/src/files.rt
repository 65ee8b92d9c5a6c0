// The files of a program, by their paths.

ghost use Rattle.std.specs.Prelude.{◌≡◌, ◌∷◌, ℕ, List, IfOk, OnOk};
ghost use Rattle.php_names.specs.Tables.{found};
ghost use Rattle.php_state.specs.declared.program.ProgramFile.{ProgramFile};
ghost use Rattle.php_bodies.specs.Tables.{or_else};
ghost use Rattle.php_bodies.specs.Files.{AllHold, FindsFiles, files_at, files_named};

use crate::one_file::{FileBodies, file_bodies};
use php_names::NameTable;
use php_state::ProgramFile;
use std::alloc::{AllocError, Global};

// Puts a file into the table, unless there is one of its path.
fn put_file<'p>(
    alloc: Global,
    table: &mut NameTable<FileBodies<'p>>,
    file: &'p ProgramFile,
) -> Result<(), AllocError>
    ensures finds { OnOk result ((path : List ℕ) (rest : List ProgramFile) → or_else (found path (files_named table.new)) (found path (files_at rest)) ≡ or_else (found path (files_named table.old)) (found path (files_at (file.now ∷ rest)))) }
    ensures holds { OnOk result (AllHold table.old → AllHold table.new) }
{
    let path = file.path.as_slice();
    match table.get(path) {
        Some(_) => Ok(()),
        None => {
            let bodies = file_bodies(alloc, file)?;
            table.add(alloc, path, bodies)?;
            Ok(())
        }
    }
}

/// The files of a program.
pub(crate) fn files_by_path<'p>(
    alloc: Global,
    files: &'p [ProgramFile],
) -> Result<NameTable<FileBodies<'p>>, AllocError>
    ensures finds { IfOk result (λ table. FindsFiles table files.now) }
    ensures holds { IfOk result (λ table. AllHold table) }
{
    let mut table = NameTable::new(alloc);
    for file in files {
        put_file(alloc, &mut table, file)?;
    }
    Ok(table)
}
