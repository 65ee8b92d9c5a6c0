// Files with the numbers of a program's names.

ghost use Rattle.std.specs.Prelude.{◌≡◌, [], ◌∷◌, Some, IfOk, OnOk, slice_get};
ghost use Rattle.php_link.specs.Names.{AreSame};
ghost use Rattle.php_link.specs.Links.{IsLinkedFile, AreLinked};

use crate::names::{Names, numbers_of};
use app_load::AppFile;
use php_renumber::stmts;
use php_state::ProgramFile;
use php_tree::file::FileTree;
use sqlite_items::Items;
use std::alloc::{AllocError, Global};

// A PHP file with other numbers for its variables.
fn linked_file(
    alloc: Global,
    names: &mut Names,
    path: &[u8],
    tree: &FileTree,
) -> Result<ProgramFile, AllocError>
    requires same { AreSame names.old }
    requires unnamed { slice_get names.old.table 6 ≡ Some [] }
    ensures { IfOk result (λ f. IsLinkedFile names.old names.new path.now tree.now f) }
{
    let numbers = numbers_of(alloc, names, tree.variables.as_slice())?;
    let statements = stmts(alloc, &numbers, tree.stmts.as_slice())?;
    let path = Items::from_slice(alloc, path)?;
    Ok(ProgramFile { path, statements })
}

// Puts a file behind others if it is a PHP file.
fn add_file(
    alloc: Global,
    names: &mut Names,
    file: &AppFile,
    linked: &mut Items<ProgramFile>,
) -> Result<(), AllocError>
    requires same { AreSame names.old }
    requires unnamed { slice_get names.old.table 6 ≡ Some [] }
    ensures { OnOk result (AreLinked names.old names.new (file.now ∷ []) linked.old linked.new) }
{
    match &file.tree {
        None => Ok(()),
        Some(tree) => {
            let one = linked_file(alloc, names, file.path.as_bytes(), tree)?;
            linked.push(one)?;
            Ok(())
        }
    }
}

/// The PHP files among files.
pub fn linked_files(
    alloc: Global,
    names: &mut Names,
    files: &[AppFile],
) -> Result<Items<ProgramFile>, AllocError>
    requires same { AreSame names.old }
    requires unnamed { slice_get names.old.table 6 ≡ Some [] }
    ensures { IfOk result (λ linked. AreLinked names.old names.new files.now [] linked) }
{
    let mut linked = Items::new(alloc);
    for file in files {
        add_file(alloc, names, file, &mut linked)?;
    }
    Ok(linked)
}
