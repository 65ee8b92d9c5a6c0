// The ordinal of an entry of an application.
ghost use Rattle.std.specs.Prelude.{◌≡◌, MatchOption};
ghost use Rattle.app_load.specs.Entries.{entry_of};
ghost use Rattle.app_files.specs.FileSets.{IsWhole, AreWhole, path_bytes};
ghost use Rattle.app_entries.specs.Ordinals.{file_entries, ordinal_in, ordinal_of};
ghost use Rattle.app_entries.specs.Search.{path_of, IsNowhere, IsFileAt};
ghost use Rattle.app_entries.specs.Search as spec;

use app_load::{AppFile, Entry};
use php_tree::file::FunSpan;
use std::cmp::Ordering;

fn entry_path(entry: &Entry) -> &str
    ensures { result.now ≡ path_of (entry_of entry.now) }
{
    match entry {
        Entry::File { path } => path.as_str(),
        Entry::Function { path, .. } => path.as_str(),
    }
}

fn function_ordinal(functions: &[FunSpan], name: &[u8]) -> Option<u32>
    ensures { result ≡ spec.function_ordinal functions.now name.now }
{
    for function in functions {
        if function.name.as_slice() == name {
            return Some(function.ordinal);
        }
    }
    None
}

// The file of a path. It takes time in the logarithm of the number of files.
fn file_at<'a>(files: &'a [AppFile], path: &str) -> Option<&'a AppFile>
    requires { AreWhole files.now }
    ensures { MatchOption result (IsNowhere path.now files.now) (λ file. IsFileAt path.now files.now file.now) }
{
    let mut left = files;
    while !left.is_empty() {
        let (front, back) = left.split_at(left.len() / 2);
        let Some((middle, behind)) = back.split_first() else {
            return None;
        };
        match middle.path.as_str().cmp(path) {
            Ordering::Less => left = behind,
            Ordering::Equal => return Some(middle),
            Ordering::Greater => left = front,
        }
    }
    None
}

// The ordinal of an entry in the file of its path.
fn file_ordinal(file: &AppFile, entry: &Entry) -> Option<u32>
    requires whole { IsWhole file.now }
    requires same { path_bytes file.now ≡ path_of (entry_of entry.now) }
    ensures { result ≡ ordinal_in (file_entries file.now) (entry_of entry.now) }
{
    let Some(tree) = &file.tree else {
        return None;
    };
    match entry {
        Entry::File { .. } => Some(0),
        Entry::Function { name, .. } => {
            function_ordinal(tree.functions.as_slice(), name.as_bytes())
        }
    }
}

/// The ordinal of an entry of an application, given by its files: 0 for a PHP file, and for a function its number in its file,
/// from 1 in text order. `None` for every other entry. It takes no memory, and time in the logarithm of the number of files and
/// in the number of the file's functions.
pub fn ordinal(files: &[AppFile], entry: &Entry) -> Option<u32>
    requires { AreWhole files.now }
    ensures { result ≡ ordinal_of files.now (entry_of entry.now) }
{
    match file_at(files, entry_path(entry)) {
        Some(file) => file_ordinal(file, entry),
        None => None,
    }
}
