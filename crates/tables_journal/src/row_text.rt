// The bytes of a row.
ghost use Rattle.std.specs.Prelude.{◌≡◌, ◌++◌, ◌<◌, ℤ, List, length, FitsSigned, OnOk, IfOk, IfSome, IfNone, IsErrOf};
ghost use Rattle.std.specs.Int.{w64};
ghost use Rattle.std.specs.Fmt.{signed_decimal};
ghost use Rattle.tables_keeper.specs.declared.cell.Column.{Column as ColumnData};
ghost use Rattle.tables_journal.specs.RowText.{cell_text, column_text, row_text, FitsCell, IsRow, IsNoRow, HasNoCell, HasNoColumn};
ghost use Rattle.tables_journal.specs.declared.row_text.RowFault.TheVariants.{Memory};

use crate::texts::{front_text, push_text};
use itoa::Buffer;
use std::alloc::{AllocError, AllocFailed, Global};
use tables_keeper::{Cell, CellText, Column, RowCells};

/// Why bytes were not read as a row. `Memory` may come at any time.
#[derive(Clone, Copy, Debug, PartialEq, Eq)]
pub enum RowFault {
    BadRow,
    Memory,
}

impl From<AllocError> for RowFault {
    ghost from_gives = { λ _ fault. fault ≡ Memory };

    fn from(_: AllocError) -> Self {
        RowFault::Memory
    }
}

impl<T: Drop> From<AllocFailed<T>> for RowFault {
    ghost from_gives = { λ _ fault. fault ≡ Memory };

    fn from(_: AllocFailed<T>) -> Self {
        RowFault::Memory
    }
}

fn push_cell(out: &mut Vec<u8>, cell: &Cell) -> Result<(), AllocError>
    ensures text { OnOk result (out.new.items ≡ out.old.items ++ cell_text cell.now) }
    ensures fits { OnOk result (FitsCell cell.now) }
{
    match cell {
        Cell::Null => out.push(b'n')?,
        Cell::Bool(true) => out.push(b't')?,
        Cell::Bool(false) => out.push(b'f')?,
        Cell::Int(number) => {
            out.push(b'i')?;
            push_text(out, Buffer::new().format(*number).as_bytes())?;
        }
        Cell::Text(text) => {
            out.push(b's')?;
            push_text(out, text.as_slice())?;
        }
    }
    Ok(())
}

fn push_column(out: &mut Vec<u8>, column: &Column) -> Result<(), AllocError>
    ensures text { OnOk result (out.new.items ≡ out.old.items ++ column_text column.now) }
    ensures fits { OnOk result (FitsCell column.now.cell) }
{
    push_text(out, column.name.as_slice())?;
    push_cell(out, &column.cell)?;
    Ok(())
}

/// The bytes of a row: for each column its name and its cell, each text with its length before it.
#[tactic(auto, using(crate::proofs::RowTextLemmas::row_push))]
pub fn row_bytes(alloc: Global, row: &RowCells) -> Result<Vec<u8>, AllocError>
    ensures text { IfOk result (λ bytes. bytes.items ≡ row_text row.now) }
    ensures row { OnOk result (IsRow row.now) }
{
    let mut bytes = Vec::new(alloc);
    for column in row.columns() {
        push_column(&mut bytes, column)?;
    }
    Ok(bytes)
}

/// The number that a decimal text names, with `-` before it where it is negative.
#[tactic(auto, using(crate::proofs::RowTextLemmas::number_text, crate::proofs::RowTextLemmas::number_parsed))]
pub fn read_number(text: &[u8]) -> Option<i64>
    ensures found { IfSome result (λ number. text.now ≡ signed_decimal number) }
    ensures none { IfNone result ((number : ℤ) → FitsSigned w64 number → text.now ≡ signed_decimal number → ⊥) }
{
    let Ok(spelled) = str::from_utf8(text) else {
        return None;
    };
    let Ok(number) = spelled.parse::<i64>() else {
        return None;
    };
    if Buffer::new().format(number).as_bytes() == text {
        Some(number)
    } else {
        None
    }
}

/// The cell with which the bytes begin, and what is behind it.
#[tactic(auto, using(crate::proofs::RowTextLemmas::no_cell_empty, crate::proofs::RowTextLemmas::no_cell_letter, crate::proofs::RowTextLemmas::no_cell_text, crate::proofs::RowTextLemmas::no_cell_number))]
fn front_cell(alloc: Global, bytes: &[u8]) -> Result<(Cell, &[u8]), RowFault>
    ensures found { IfOk result (λ front. bytes.now ≡ cell_text front.0 ++ front.1.now) }
    ensures fits { IfOk result (λ front. FitsCell front.0) }
    ensures none { IsErrOf result RowFault.BadRow → HasNoCell bytes.now }
{
    let Some((&kind, behind)) = bytes.split_first() else {
        return Err(RowFault::BadRow);
    };
    match kind {
        b'n' => return Ok((Cell::Null, behind)),
        b't' => return Ok((Cell::Bool(true), behind)),
        b'f' => return Ok((Cell::Bool(false), behind)),
        b'i' | b's' => (),
        _ => return Err(RowFault::BadRow),
    }
    let Some((text, rest)) = front_text(behind) else {
        return Err(RowFault::BadRow);
    };
    if kind == b's' {
        return Ok((Cell::Text(CellText::from_slice(alloc, text)?), rest));
    }
    match read_number(text) {
        Some(number) => Ok((Cell::Int(number), rest)),
        None => Err(RowFault::BadRow),
    }
}

/// The column with which the bytes begin, and what is behind it.
#[tactic(auto, using(crate::proofs::RowTextLemmas::no_column_cell))]
fn front_column(alloc: Global, bytes: &[u8]) -> Result<(Column, &[u8]), RowFault>
    ensures found { IfOk result (λ front. bytes.now ≡ column_text front.0 ++ front.1.now) }
    ensures fits { IfOk result (λ front. FitsCell front.0.cell) }
    ensures shorter { IfOk result (λ front. length front.1.now < length bytes.now) }
    ensures none { IsErrOf result RowFault.BadRow → HasNoColumn bytes.now }
{
    let Some((name, behind)) = front_text(bytes) else {
        return Err(RowFault::BadRow);
    };
    let (cell, rest) = front_cell(alloc, behind)?;
    let name = CellText::from_slice(alloc, name)?;
    Ok((Column { name, cell }, rest))
}

/// The row of these bytes.
#[tactic(auto, using(crate::proofs::RowTextLemmas::no_row_end, crate::proofs::RowTextLemmas::no_row_twice, crate::proofs::RowTextLemmas::row_alone, crate::proofs::RowTextLemmas::row_push))]
pub fn read_row(alloc: Global, bytes: &[u8]) -> Result<RowCells, RowFault>
    ensures row { IfOk result (λ row. row_text row ≡ bytes.now) }
    ensures fits { IfOk result (λ row. IsRow row) }
    ensures bad { IsErrOf result RowFault.BadRow → IsNoRow bytes.now }
    ensures found { (columns : List ColumnData) → IsRow columns → row_text columns ≡ bytes.now → IfOk result (λ row. row ≡ columns) }
{
    let mut row = RowCells::new(alloc);
    let mut rest = bytes;
    while !rest.is_empty() {
        let (column, behind) = front_column(alloc, rest)?;
        if row.has(column.name.as_slice()) {
            return Err(RowFault::BadRow);
        }
        row.put(column)?;
        rest = behind;
    }
    Ok(row)
}
