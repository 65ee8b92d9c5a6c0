// The journal's text: whole commits, and at its end perhaps a commit that is not whole.
ghost use Rattle.std.specs.Prelude.{◌≡◌, ◌++◌, ◌∷◌, ◌<◌, ◌≤◌, length, drop, OnOk, false, IfOk, IfNone, IfSome, IsErrOf, IsTrue};
ghost use Rattle.tables_journal.specs.Texts.{text_of};
ghost use Rattle.std.specs.List.{All};
ghost use Rattle.tables_keeper.specs.Tables.{tables_of, IsChange, all_redone};
ghost use Rattle.tables_journal.specs.Journal.{changes_text, commit_text, IsSound, EndsEarly, EndsNotEarly, HasNoCommit, IsLoaded, IsOnlyLoaded, IsNoJournal};
ghost use Rattle.tables_journal.specs.declared.journal.JournalFault.TheVariants.{Memory};

use crate::change_text::{push_change, read_changes};
use crate::texts::{colon_place, front_text, push_text};
use less_terms::read_decimal;
use std::alloc::{AllocError, AllocFailed, Global};
use tables_keeper::{Change, Tables};

/// Why bytes were not read as a journal. `Memory` may come at any time.
#[derive(Clone, Copy, Debug, PartialEq, Eq)]
pub enum JournalFault {
    BadForm,
    Memory,
}

impl From<AllocError> for JournalFault {
    ghost from_gives = { λ _ fault. fault ≡ Memory };

    fn from(_: AllocError) -> Self {
        JournalFault::Memory
    }
}

impl<T: Drop> From<AllocFailed<T>> for JournalFault {
    ghost from_gives = { λ _ fault. fault ≡ Memory };

    fn from(_: AllocFailed<T>) -> Self {
        JournalFault::Memory
    }
}

/// What a journal makes, and how many bytes its whole commits have.
#[derive(Debug, Drop)]
pub struct Loaded {
    pub tables: Tables,
    pub whole: usize,
}

#[tactic(auto, using(crate::proofs::JournalLemmas::changes_push))]
fn changes_bytes(alloc: Global, changes: &[Change]) -> Result<Vec<u8>, AllocError>
    requires { All IsChange changes.now }
    ensures text { IfOk result (λ bytes. bytes.items ≡ changes_text changes.now) }
{
    let mut bytes = Vec::new(alloc);
    for change in changes {
        push_change(alloc, &mut bytes, change)?;
    }
    Ok(bytes)
}

/// The bytes of a commit: `c`, and the text of its changes with its length.
pub fn commit_bytes(alloc: Global, changes: &[Change]) -> Result<Vec<u8>, AllocError>
    requires { All IsChange changes.now }
    ensures { IfOk result (λ bytes. bytes.items ≡ commit_text changes.now) }
{
    let content = changes_bytes(alloc, changes)?;
    let mut bytes = Vec::new(alloc);
    bytes.push(b'c')?;
    push_text(&mut bytes, content.as_slice())?;
    Ok(bytes)
}

/// The content of the whole commit with which the bytes begin, and what is behind it.
#[tactic(auto, using(crate::proofs::ReadBack::no_commit_empty, crate::proofs::ReadBack::no_commit_letter, crate::proofs::ReadBack::no_commit_text))]
fn front_commit(bytes: &[u8]) -> Option<(&[u8], &[u8])>
    ensures found { IfSome result (λ front. bytes.now ≡ (99 ∷ text_of front.0.now) ++ front.1.now) }
    ensures shorter { IfSome result (λ front. length front.1.now < length bytes.now) }
    ensures none { IfNone result (HasNoCommit bytes.now) }
{
    match bytes.split_first() {
        Some((b'c', behind)) => front_text(behind),
        _ => None,
    }
}

/// Whether the bytes are a front part of a commit, but not the whole: `c`, its length, `:` and the content, which ends
/// before its length is reached. The content is not looked at.
#[tactic(auto, using(crate::proofs::JournalLemmas::early_none, crate::proofs::CutLemmas::not_early_letter))]
fn ends_early(bytes: &[u8]) -> bool
    ensures early { IsTrue result → EndsEarly bytes.now }
    ensures other { result ≡ false → EndsNotEarly bytes.now }
{
    match bytes.split_first() {
        None => true,
        Some((b'c', behind)) => length_ends_early(behind),
        Some(_) => false,
    }
}

/// The same of what is behind the letter.
#[tactic(auto, using(crate::proofs::JournalLemmas::early_letter, crate::proofs::JournalLemmas::early_digits, crate::proofs::JournalLemmas::early_part, crate::proofs::CutLemmas::not_early_number))]
fn length_ends_early(bytes: &[u8]) -> bool
    ensures early { IsTrue result → EndsEarly (99 ∷ bytes.now) }
    ensures other { result ≡ false → EndsNotEarly (99 ∷ bytes.now) }
{
    if bytes.is_empty() {
        return true;
    }
    let Some(place) = colon_place(bytes) else {
        return match read_decimal(bytes, u64::MAX) {
            Some(_) => true,
            None => false,
        };
    };
    let (digits, behind) = bytes.split_at(place);
    let behind = behind.split_at(1).1;
    match read_decimal(digits, u64::MAX) {
        Some(length) => length > behind.len() as u64,
        None => false,
    }
}

fn redo_changes(tables: &mut Tables, changes: Vec<Change>) -> Result<(), AllocError>
    requires { All IsSound changes.items }
    ensures { OnOk result (tables_of tables.new ≡ all_redone changes.items (tables_of tables.old)) }
{
    for change in changes {
        tables.redo_owned(change)?;
    }
    Ok(())
}

/// What the journal of these bytes makes: that of its whole commits. A last commit that is not whole is left out.
#[tactic(auto, using(crate::proofs::JournalLemmas::loaded_nothing, crate::proofs::JournalLemmas::loaded_more, crate::proofs::JournalLemmas::rest_at, crate::proofs::JournalLemmas::rest_within, crate::proofs::ReadBack::no_journal_end, crate::proofs::ReadBack::no_journal_changes))]
pub fn read_journal(alloc: Global, bytes: &[u8]) -> Result<Loaded, JournalFault>
    ensures loaded { IfOk result (λ loaded. IsLoaded bytes.now (drop loaded.whole bytes.now) (tables_of loaded.tables)) }
    ensures ends { IfOk result (λ loaded. EndsEarly (drop loaded.whole bytes.now)) }
    ensures within { IfOk result (λ loaded. loaded.whole ≤ length bytes.now) }
    ensures only { IfOk result (λ loaded. IsOnlyLoaded bytes.now (drop loaded.whole bytes.now) (tables_of loaded.tables)) }
    ensures bad { IsErrOf result JournalFault.BadForm → IsNoJournal bytes.now }
{
    let mut tables = Tables::new(alloc);
    let mut rest = bytes;
    while let Some((content, behind)) = front_commit(rest) {
        let changes = read_changes(alloc, content)?;
        redo_changes(&mut tables, changes)?;
        rest = behind;
    }
    if !ends_early(rest) {
        return Err(JournalFault::BadForm);
    }
    Ok(Loaded {
        tables,
        whole: bytes.len() - rest.len(),
    })
}
