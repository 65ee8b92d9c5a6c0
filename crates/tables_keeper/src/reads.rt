// Rows that are handed out.
ghost use Rattle.std.specs.Prelude.{◌≡◌, ◌<◌, length, codes, IfOk, Some, map};
ghost use Rattle.tables_keeper.specs.Cells.{text_form};
ghost use Rattle.tables_keeper.specs.Rows.{has_text, with_id};
ghost use Rattle.tables_keeper.specs.TableData.{shown};
ghost use Rattle.tables_keeper.specs.Tables.{rows_with_text, has_cell, is_duplicate};

use crate::table::{Row, Table};
use crate::{Cell, ID, RowCells, RowList};
use itoa::Buffer;
use std::alloc::{AllocError, Global};

/// Copies of all rows.
pub fn all_rows(alloc: Global, table: &Table) -> Result<RowList, AllocError>
    ensures { IfOk result (λ list. list ≡ map shown table.now.content.rows) }
{
    let mut list = RowList::new(alloc);
    for place in 0..table.rows().len() {
        list.push(table.shown(alloc, place)?)?;
    }
    Ok(list)
}

/// Whether a row has this text form at a column, its id not among the columns.
fn cells_have_text(cells: &RowCells, column: &[u8], text: &[u8]) -> bool
    ensures { result ≡ has_text column.now text.now cells.now }
{
    match cells.cell(column) {
        Some(cell) => cell.has_text(text),
        None => false,
    }
}

/// Whether a row has this text form at a column, its id among the columns.
fn row_has_text(row: &Row, column: &[u8], text: &[u8]) -> bool
    ensures { result ≡ has_text column.now text.now (shown row.now) }
{
    if column == ID {
        return Buffer::new().format(row.id).as_bytes() == text;
    }
    cells_have_text(&row.cells, column, text)
}

/// Copies of the rows that have this text form at a column.
pub fn rows_with_text(
    alloc: Global,
    table: &Table,
    column: &[u8],
    text: &[u8],
) -> Result<RowList, AllocError>
    ensures { IfOk result (λ list. list ≡ rows_with_text column.now text.now table.now.content.rows) }
{
    let mut list = RowList::new(alloc);
    let rows = table.rows();
    for place in 0..rows.len() {
        if row_has_text(&rows[place], column, text) {
            list.push(table.shown(alloc, place)?)?;
        }
    }
    Ok(list)
}

/// Whether a row has at a column the text form of a cell.
fn has_cell(column: &[u8], cell: &Cell, rows: &[Row]) -> bool
    ensures { result ≡ has_cell column.now (Some cell.now) rows.now }
{
    rows.iter()
        .any(|row| cells_have_cell(&row.cells, column, cell))
}

fn cells_have_cell(cells: &RowCells, column: &[u8], cell: &Cell) -> bool
    ensures { result ≡ has_text column.now (text_form cell.now) cells.now }
{
    match cells.cell(column) {
        Some(own) => own.same_text(cell),
        None => false,
    }
}

/// Whether `unique` names a column, and a row has there what these cells have there.
pub fn is_duplicate(unique: &[u8], cells: &RowCells, rows: &[Row]) -> bool
    ensures { result ≡ is_duplicate unique.now cells.now rows.now }
{
    if unique.is_empty() {
        return false;
    }
    match cells.cell(unique) {
        Some(cell) => has_cell(unique, cell, rows),
        None => false,
    }
}
