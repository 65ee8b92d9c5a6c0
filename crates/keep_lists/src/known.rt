// The texts that name something of an application.
ghost use Rattle.std.specs.Prelude.{◌≡◌, ◌||◌, ◌++◌, List, ℕ, codes, map, IfOk, OnOk, string_bytes};
ghost use Rattle.std.specs.List.{list_any};
ghost use Rattle.std.specs.Str.{bytes_eq};
ghost use Rattle.std.specs.HashSet.{contains_text};
ghost use Rattle.app_load.specs.Entries.{entry_of};
ghost use Rattle.keep_lists.specs.Known as spec;

use app_load::Entry;
use std::alloc::{AllocError, Global};
use std::collections::HashSet;

fn add(texts: &mut HashSet<String>, text: String) -> Result<(), AllocError>
    ensures { OnOk result ((t : List ℕ) → contains_text texts.new t ≡ (bytes_eq (string_bytes text) t || contains_text texts.old t)) }
{
    texts.insert(text)?;
    Ok(())
}

// `PATH#*`
fn all_functions(path: &String) -> Result<String, AllocError>
    ensures { IfOk result (λ text. string_bytes text ≡ string_bytes path.now ++ codes "#*") }
{
    let mut text = path.clone()?;
    text.push_str("#*")?;
    Ok(text)
}

// `PATH#NAME`
fn one_function(path: &String, name: &str) -> Result<String, AllocError>
    ensures { IfOk result (λ text. string_bytes text ≡ string_bytes path.now ++ (codes "#" ++ name.now)) }
{
    let mut text = path.clone()?;
    text.push_str("#")?;
    text.push_str(name)?;
    Ok(text)
}

fn add_entry(texts: &mut HashSet<String>, entry: &Entry) -> Result<(), AllocError>
    ensures { OnOk result ((t : List ℕ) → contains_text texts.new t ≡ (spec.names_entry t (entry_of entry.now) || contains_text texts.old t)) }
{
    match entry {
        Entry::File { path } => {
            let all = all_functions(path)?;
            add(texts, path.clone()?)?;
            add(texts, all)?;
            Ok(())
        }
        Entry::Function { path, name } => {
            let one = one_function(path, name.as_str())?;
            add(texts, one)?;
            Ok(())
        }
    }
}

fn add_entries(texts: &mut HashSet<String>, entries: &[Entry]) -> Result<(), AllocError>
    ensures { OnOk result ((t : List ℕ) → contains_text texts.new t ≡ (list_any (spec.names_entry t) (map entry_of entries.now) || contains_text texts.old t)) }
{
    for entry in entries {
        add_entry(texts, entry)?;
    }
    Ok(())
}

fn add_files(texts: &mut HashSet<String>, paths: &[String]) -> Result<(), AllocError>
    ensures { OnOk result ((t : List ℕ) → contains_text texts.new t ≡ (list_any (spec.names_file t) (map string_bytes paths.now) || contains_text texts.old t)) }
{
    for path in paths {
        add(texts, path.clone()?)?;
    }
    Ok(())
}

/// The texts that name an entry, or a static file by its path.
pub fn known_texts(
    alloc: Global,
    entries: &[Entry],
    statics: &[String],
) -> Result<HashSet<String>, AllocError>
    ensures { IfOk result (λ texts. (t : List ℕ) → contains_text texts t ≡ spec.names_any (map entry_of entries.now) (map string_bytes statics.now) t) }
{
    let mut texts = HashSet::new(alloc);
    add_entries(&mut texts, entries)?;
    add_files(&mut texts, statics)?;
    Ok(texts)
}
