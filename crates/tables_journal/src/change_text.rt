// The bytes of a change.
ghost use Rattle.std.specs.Prelude.{◌≡◌, ◌++◌, ℤ, None, codes, OnOk, IfOk, IfNone, IfSome, IsErrOf};
ghost use Rattle.std.specs.Fmt.{signed_decimal};
ghost use Rattle.std.specs.List.{position, All};
ghost use Rattle.tables_keeper.specs.Rows.{is_named};
ghost use Rattle.tables_journal.specs.Texts.{text_of};
ghost use Rattle.tables_journal.specs.RowText.{row_text, IsRow};
ghost use Rattle.tables_keeper.specs.Tables.{IsChange};
ghost use Rattle.tables_journal.specs.Journal.{change_text, changes_text, HasNoCells, HasNoChange, HasNoPlace, IsDropSound, IsNoChanges, IsSound};

use crate::journal::JournalFault;
use crate::row_text::{RowFault, read_number, read_row, row_bytes};
use crate::texts::{front_text, push_text};
use itoa::Buffer;
use std::alloc::{AllocError, Global};
use tables_keeper::{CellText, Change, ID, RowCells};

/// Puts a change behind the bytes.
pub fn push_change(alloc: Global, out: &mut Vec<u8>, change: &Change) -> Result<(), AllocError>
    requires { IsChange change.now }
    ensures text { OnOk result (out.new.items ≡ out.old.items ++ change_text change.now) }
    ensures sound { OnOk result (IsSound change.now) }
{
    match change {
        Change::Put { table, id, row } => {
            out.push(b'p')?;
            push_text(out, table.as_slice())?;
            push_text(out, Buffer::new().format(*id).as_bytes())?;
            push_text(out, row_bytes(alloc, row)?.as_slice())?;
        }
        Change::Drop { table, id } => {
            out.push(b'd')?;
            push_text(out, table.as_slice())?;
            push_text(out, Buffer::new().format(*id).as_bytes())?;
        }
    }
    Ok(())
}

/// The id that a text names.
#[tactic(auto, using(crate::proofs::ReadBack::no_id))]
fn read_id(text: &[u8]) -> Option<i64>
    ensures found { IfSome result (λ id. text.now ≡ signed_decimal id) }
    ensures sound { IfSome result IsDropSound }
    ensures none { IfNone result ((id : ℤ) → IsDropSound id → text.now ≡ signed_decimal id → ⊥) }
{
    let id = read_number(text)?;
    if id > 0 { Some(id) } else { None }
}

/// The table and the id with which the bytes begin, and what is behind them.
#[tactic(auto, using(crate::proofs::ReadBack::no_place_table, crate::proofs::ReadBack::no_place_id, crate::proofs::ReadBack::no_place_number))]
fn front_row(alloc: Global, bytes: &[u8]) -> Result<(CellText, i64, &[u8]), JournalFault>
    ensures found { IfOk result (λ front. bytes.now ≡ text_of front.0 ++ (text_of (signed_decimal front.1) ++ front.2.now)) }
    ensures sound { IfOk result (λ front. IsDropSound front.1) }
    ensures bad { IsErrOf result JournalFault.BadForm → HasNoPlace bytes.now }
{
    let Some((table, behind)) = front_text(bytes) else {
        return Err(JournalFault::BadForm);
    };
    let Some((id, behind)) = front_text(behind) else {
        return Err(JournalFault::BadForm);
    };
    let Some(id) = read_id(id) else {
        return Err(JournalFault::BadForm);
    };
    let table = CellText::from_slice(alloc, table)?;
    Ok((table, id, behind))
}

/// The cells with whose bytes as a text the bytes begin, and what is behind them.
#[tactic(auto, using(crate::proofs::ReadBack::no_cells_text, crate::proofs::ReadBack::no_cells_row, crate::proofs::ReadBack::no_cells_id))]
fn front_cells(alloc: Global, bytes: &[u8]) -> Result<(RowCells, &[u8]), JournalFault>
    ensures found { IfOk result (λ front. bytes.now ≡ text_of (row_text front.0) ++ front.1.now) }
    ensures sound { IfOk result (λ front. IsRow front.0) }
    ensures plain { IfOk result (λ front. position (is_named (codes "id")) front.0 ≡ None) }
    ensures bad { IsErrOf result JournalFault.BadForm → HasNoCells bytes.now }
{
    let Some((text, behind)) = front_text(bytes) else {
        return Err(JournalFault::BadForm);
    };
    let row = match read_row(alloc, text) {
        Ok(row) => row,
        Err(RowFault::BadRow) => return Err(JournalFault::BadForm),
        Err(RowFault::Memory) => return Err(JournalFault::Memory),
    };
    if row.has(ID) {
        return Err(JournalFault::BadForm);
    }
    Ok((row, behind))
}

/// The change with which the bytes begin, and what is behind it.
#[tactic(auto, using(crate::proofs::ReadBack::no_change_empty, crate::proofs::ReadBack::no_change_letter, crate::proofs::ReadBack::no_change_place, crate::proofs::ReadBack::no_change_cells))]
fn front_change(alloc: Global, bytes: &[u8]) -> Result<(Change, &[u8]), JournalFault>
    ensures found { IfOk result (λ front. bytes.now ≡ change_text front.0 ++ front.1.now) }
    ensures sound { IfOk result (λ front. IsSound front.0) }
    ensures bad { IsErrOf result JournalFault.BadForm → HasNoChange bytes.now }
{
    match bytes.split_first() {
        Some((b'd', behind)) => {
            let (table, id, behind) = front_row(alloc, behind)?;
            Ok((Change::Drop { table, id }, behind))
        }
        Some((b'p', behind)) => {
            let (table, id, behind) = front_row(alloc, behind)?;
            let (row, behind) = front_cells(alloc, behind)?;
            Ok((Change::Put { table, id, row }, behind))
        }
        _ => Err(JournalFault::BadForm),
    }
}

/// The changes of these bytes.
#[tactic(auto, using(crate::proofs::JournalLemmas::changes_push, crate::proofs::ReadBack::no_changes_end))]
pub fn read_changes(alloc: Global, bytes: &[u8]) -> Result<Vec<Change>, JournalFault>
    ensures text { IfOk result (λ changes. changes_text changes.items ≡ bytes.now) }
    ensures sound { IfOk result (λ changes. All IsSound changes.items) }
    ensures bad { IsErrOf result JournalFault.BadForm → IsNoChanges bytes.now }
{
    let mut changes = Vec::new(alloc);
    let mut rest = bytes;
    while !rest.is_empty() {
        let (change, behind) = front_change(alloc, rest)?;
        changes.push(change)?;
        rest = behind;
    }
    Ok(changes)
}
