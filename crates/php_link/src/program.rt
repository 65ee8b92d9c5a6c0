// A program out of files.

ghost use Rattle.std.specs.Prelude.{◌≡◌, map, IfOk};
ghost use Rattle.app_files.specs.FileSets.{AreWhole};
ghost use Rattle.php_state.specs.Linked.{AreApart, path_of_file};
ghost use Rattle.php_link.specs.Links.{IsLinkOf};

use crate::file::linked_files;
use crate::names::{Names, first};
use app_load::AppFile;
use php_state::{Program, ProgramFile};
use php_tables::PathTable;
use std::alloc::{AllocError, Global};

// The paths of files of which none stands twice.
fn paths_of(alloc: Global, files: &[ProgramFile]) -> Result<PathTable, AllocError>
    requires { AreApart (map path_of_file files.now) }
    ensures { IfOk result (λ paths. paths ≡ map path_of_file files.now) }
{
    let mut paths = PathTable::new(alloc);
    for file in files {
        paths.add(alloc, file.path.as_slice())?;
    }
    Ok(paths)
}

/// The program of the files of an application or of a copy. Trees are copied; files that are no PHP files are left out.
pub fn link(alloc: Global, files: &[AppFile]) -> Result<Program, AllocError>
    requires { AreWhole files.now }
    ensures { IfOk result (λ program. IsLinkOf files.now program) }
{
    let mut names = first(alloc)?;
    let linked = linked_files(alloc, &mut names, files)?;
    let paths = paths_of(alloc, linked.as_slice())?;
    let Names { list, table: _ } = names;
    Ok(Program {
        files: linked,
        paths,
        names: list,
    })
}
