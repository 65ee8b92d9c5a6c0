// The entries of an application, listed.
ghost use Rattle.std.specs.Prelude.{◌≡◌, ◌++◌, ◌∷◌, [], map, IfOk, OnOk, string_bytes};
ghost use Rattle.std.specs.List.{All};
ghost use Rattle.app_load.specs.Entries.{entry_of};
ghost use Rattle.app_load.specs.Entries as spec;
ghost use Rattle.app_files.specs.FileSets.{IsWhole, AreWhole};
ghost use Rattle.app_entries.specs.Ordinals.{file_entries, entries_in, function_entry};
ghost use Rattle.app_entries.specs.Listed.{entry_in};

use app_load::{AppFile, Entry};
use less_terms::Memory;
use php_tree::file::FunSpan;
use std::alloc::{AllocError, Global};

// A name as a text. Words of PHP are ASCII; another name would count as want of memory.
fn name_text(alloc: Global, name: &[u8]) -> Result<String, Memory>
    ensures { IfOk result (λ text. string_bytes text ≡ name.now) }
{
    match str::from_utf8(name) {
        Ok(text) => {
            let text = String::from_str(alloc, text)?;
            Ok(text)
        }
        Err(_) => Err(AllocError),
    }
}

fn push_function(
    alloc: Global,
    entries: &mut Vec<Entry>,
    path: &str,
    function: &FunSpan,
) -> Result<(), Memory>
    ensures { OnOk result (map entry_of entries.new.items ≡ map entry_of entries.old.items ++ spec.function path.now function.now.name ∷ []) }
{
    let path = String::from_str(alloc, path)?;
    let name = name_text(alloc, function.name.as_slice())?;
    entries.push(Entry::Function { path, name })?;
    Ok(())
}

#[tactic(auto, using(crate::proofs::Listing::functions_begin, crate::proofs::Listing::functions_go_on, crate::proofs::Listing::functions_end))]
fn push_functions(
    alloc: Global,
    entries: &mut Vec<Entry>,
    path: &str,
    functions: &[FunSpan],
) -> Result<(), Memory>
    ensures { OnOk result (map entry_of entries.new.items ≡ map entry_of entries.old.items ++ map entry_in (map (function_entry path.now) functions.now)) }
{
    for function in functions {
        push_function(alloc, entries, path, function)?;
    }
    Ok(())
}

fn push_path(alloc: Global, entries: &mut Vec<Entry>, path: &str) -> Result<(), Memory>
    ensures { OnOk result (map entry_of entries.new.items ≡ map entry_of entries.old.items ++ spec.file path.now ∷ []) }
{
    let path = String::from_str(alloc, path)?;
    entries.push(Entry::File { path })?;
    Ok(())
}

fn push_file(alloc: Global, entries: &mut Vec<Entry>, file: &AppFile) -> Result<(), Memory>
    requires { IsWhole file.now }
    ensures { OnOk result (map entry_of entries.new.items ≡ map entry_of entries.old.items ++ map entry_in (file_entries file.now)) }
{
    let Some(tree) = &file.tree else {
        return Ok(());
    };
    let path = file.path.as_str();
    push_path(alloc, entries, path)?;
    push_functions(alloc, entries, path, tree.functions.as_slice())?;
    Ok(())
}

/// The entries of an application, given by its files: each PHP file, and behind it its functions in text order, file by file.
#[tactic(auto, using(crate::proofs::Listing::files_begin, crate::proofs::Listing::files_go_on, crate::proofs::Listing::files_end))]
pub fn entries(alloc: Global, files: &[AppFile]) -> Result<Vec<Entry>, Memory>
    requires { AreWhole files.now }
    ensures { IfOk result (λ entries. map entry_of entries.items ≡ map entry_in (entries_in files.now)) }
{
    let mut entries = Vec::new(alloc);
    for file in files {
        push_file(alloc, &mut entries, file)?;
    }
    Ok(entries)
}
