//! Reading a line of the removal log.
ghost use Rattle.std.specs.Prelude.{◌≡◌, true, false, List, [], ◌∷◌, ◌++◌, ℕ, IfOk, IsErrOf, IsTrue, IsFalse, MatchOption};
ghost use Rattle.std.specs.Str.{IsUtf8};
ghost use Rattle.less_terms.specs.Decimals.{decimal_value};
ghost use Rattle.less_terms.specs.Forms.{is_role};
ghost use Rattle.less_terms.specs.Paths.{is_path, is_function_name};
ghost use Rattle.app_load.specs.Entries.{entry_of};
ghost use Rattle.removal_reports.specs.Fields.{fields_list, named_entry, told_removal};
ghost use Rattle.removal_reports.specs.LogLines.{Removal, removal_of, IsLineOf, IsNoLine, AreFieldsOf, AreNoFields, TellsEntry, TellsNoEntry};
ghost use Rattle.removal_reports.specs.declared.reader.LogFault.TheVariants as fault;

use crate::fields::{Fields, cut_fields};
use crate::line::LogLine;
use app_load::Entry;
use less_terms::{Memory, is_function_name, is_path, is_role, read_decimal};
use std::alloc::Global;

/// Why a line is not read.
#[derive(Clone, Copy, Debug, PartialEq, Eq)]
pub enum LogFault {
    /// It is the line of no removal.
    BadLine,
    Memory,
}

// An entry whose names stand in the line.
#[derive(Clone, Copy)]
enum NamedEntry<'a> {
    File(&'a str),
    Function(&'a str, &'a str),
}

// What a line tells, where it stands in the line.
#[derive(Drop)]
struct Told<'a> {
    moment: u64,
    role: &'a str,
    slot: u8,
    entry: NamedEntry<'a>,
}

fn is_same(text: &[u8], word: &[u8]) -> bool
    ensures yes { IsTrue result → text.now ≡ word.now }
    ensures no { IsFalse result → text.now ≡ word.now → ⊥ }
{
    text == word
}

fn as_text(bytes: &[u8]) -> Option<&str>
    ensures { MatchOption result (IsUtf8 bytes.now → ⊥) (λ text. text.now ≡ bytes.now) }
{
    match str::from_utf8(bytes) {
        Ok(text) => Some(text),
        Err(_) => None,
    }
}

#[tactic(auto, using(crate::proofs::Clean::path_is_utf8))]
fn read_path(path: &[u8]) -> Option<&str>
    ensures { MatchOption result (is_path path.now ≡ false) (λ text. (text.now ≡ path.now) × (is_path path.now ≡ true)) }
{
    if !is_path(path) {
        return None;
    }
    as_text(path)
}

#[tactic(auto, using(crate::proofs::Clean::name_is_utf8))]
fn read_name(name: &[u8]) -> Option<&str>
    ensures { MatchOption result (is_function_name name.now ≡ false) (λ text. (text.now ≡ name.now) × (is_function_name name.now ≡ true)) }
{
    if !is_function_name(name) {
        return None;
    }
    as_text(name)
}

#[tactic(auto, using(crate::proofs::Clean::role_is_utf8))]
fn read_role(role: &[u8]) -> Option<&str>
    ensures { MatchOption result (is_role role.now ≡ false) (λ text. (text.now ≡ role.now) × (is_role role.now ≡ true)) }
{
    if !is_role(role) {
        return None;
    }
    as_text(role)
}

fn read_slot(slot: &[u8]) -> Option<u8>
    ensures { result ≡ decimal_value 255 slot.now }
{
    match read_decimal(slot, 255) {
        Some(slot) => Some(slot as u8),
        None => None,
    }
}

#[tactic(auto, using(crate::proofs::Readings::no_function_name, crate::proofs::Readings::no_kind, crate::proofs::Readings::no_file, crate::proofs::Readings::no_path, crate::proofs::Readings::tells_file, crate::proofs::Readings::tells_function))]
fn read_entry<'a>(kind: &[u8], path: &'a [u8], name: &'a [u8]) -> Option<NamedEntry<'a>>
    ensures { MatchOption result (TellsNoEntry kind.now path.now name.now) (λ entry. TellsEntry (named_entry entry) kind.now path.now name.now) }
{
    let Some(path) = read_path(path) else {
        return None;
    };
    if is_same(kind, b"file") {
        if !is_same(name, b"-") {
            return None;
        }
        return Some(NamedEntry::File(path));
    }
    if !is_same(kind, b"function") {
        return None;
    }
    let Some(name) = read_name(name) else {
        return None;
    };
    Some(NamedEntry::Function(path, name))
}

#[tactic(auto, using(crate::proofs::Readings::no_word, crate::proofs::Readings::no_role, crate::proofs::Readings::no_entry))]
fn read_fields<'a>(fields: &Fields<'a>) -> Option<Told<'a>>
    ensures { MatchOption result (AreNoFields (fields_list fields.now)) (λ told. AreFieldsOf (told_removal told) (fields_list fields.now)) }
{
    if !is_same(fields.word, b"removed") {
        return None;
    }
    let Some(moment) = read_decimal(fields.moment, u64::MAX) else {
        return None;
    };
    let Some(role) = read_role(fields.role) else {
        return None;
    };
    let Some(slot) = read_slot(fields.slot) else {
        return None;
    };
    let Some(entry) = read_entry(fields.kind, fields.path, fields.name) else {
        return None;
    };
    Some(Told {
        moment,
        role,
        slot,
        entry,
    })
}

// The text of a line without its line end.
fn without_end(line: &[u8]) -> Option<&[u8]>
    ensures { MatchOption result ((text : List ℕ) → line.now ≡ text ++ 10 ∷ [] → ⊥) (λ text. line.now ≡ text.now ++ 10 ∷ []) }
{
    match line.split_last() {
        Some((b'\n', text)) => Some(text),
        _ => None,
    }
}

#[tactic(auto, using(crate::proofs::Lines::no_end))]
fn read_line(line: &[u8]) -> Option<Told<'_>>
    ensures { MatchOption result (IsNoLine line.now) (λ told. IsLineOf (told_removal told) line.now) }
{
    let Some(text) = without_end(line) else {
        return None;
    };
    let Some(fields) = cut_fields(text) else {
        return None;
    };
    let Some(told) = read_fields(&fields) else {
        return None;
    };
    Some(told)
}

fn to_entry(alloc: Global, entry: NamedEntry<'_>) -> Result<Entry, Memory>
    ensures { IfOk result (λ owned. entry_of owned ≡ named_entry entry.entry) }
{
    match entry {
        NamedEntry::File(path) => {
            let path = String::from_str(alloc, path)?;
            Ok(Entry::File { path })
        }
        NamedEntry::Function(path, name) => {
            let path = String::from_str(alloc, path)?;
            let name = String::from_str(alloc, name)?;
            Ok(Entry::Function { path, name })
        }
    }
}

fn to_line(alloc: Global, told: Told<'_>) -> Result<LogLine, Memory>
    ensures { IfOk result (λ line. removal_of line ≡ told_removal told.entry) }
{
    let entry = to_entry(alloc, told.entry)?;
    let role = String::from_str(alloc, told.role)?;
    Ok(LogLine {
        moment: told.moment,
        role,
        slot: told.slot,
        entry,
    })
}

/// Reads a line with its line end as the removal that `log_line` writes so, or tells that it is the line of none.
pub fn read_log_line(alloc: Global, line: &[u8]) -> Result<LogLine, LogFault>
    ensures ok { IfOk result (λ told. IsLineOf (removal_of told) line.now) }
    ensures only { IfOk result (λ told. (r : Removal) → IsLineOf r line.now → r ≡ removal_of told) }
    ensures bad { IsErrOf result fault.BadLine → IsNoLine line.now }
{
    let Some(told) = read_line(line) else {
        return Err(LogFault::BadLine);
    };
    match to_line(alloc, told) {
        Ok(told) => Ok(told),
        Err(_) => Err(LogFault::Memory),
    }
}
