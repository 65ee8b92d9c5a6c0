// A list of tables in the order of their names: one of them found, changed, put in or taken away.
ghost use Rattle.std.specs.Prelude.{◌≡◌, ◌==◌, ◌<◌, ◌≤◌, ◌+◌, ◌^◌, [], length, codes, None, IfOk, OnOk, OnErr, slice_set, vec_len};
ghost use Rattle.std.specs.List.{position, insert, remove, All};
ghost use Rattle.tables_keeper.specs.Rows.{is_named};
ghost use Rattle.tables_keeper.specs.TableData.{IsTable, rows_before, with_new_row, with_cells, without_row, with_row_at, with_raised, with_put, with_top};
ghost use Rattle.tables_keeper.specs.declared.limits.TheConstants.{MAX_ID};
ghost use Rattle.tables_keeper.specs.Tables.{HasRisingNames, tables_of, tables_before, table_place, table_at, row_at, new_table};
ghost use Rattle.tables_keeper.specs.Undo.{CanDropRow, CanPutBack, HasRoomAt, change_at, view_at, content_at, without_put, with_row_back};

use crate::table::Table;
use crate::{CellText, RowCells};
use std::alloc::{AllocError, Global};

/// How many tables, from the first on, have lower names.
fn count_below(list: &[Table], name: &[u8]) -> usize
    requires { HasRisingNames (tables_of list.now) }
    ensures place { result ≡ tables_before name.now (tables_of list.now) }
    ensures within { result ≤ length list.now }
{
    list.partition_point(|table| table.name().cmp(name).is_lt())
}

/// The place of the table of this name.
pub fn place_of(list: &[Table], name: &[u8]) -> Option<usize>
    requires { HasRisingNames (tables_of list.now) }
    ensures { result ≡ table_place name.now (tables_of list.now) }
{
    let place = count_below(list, name);
    if place < list.len() && list[place].name() == name {
        Some(place)
    } else {
        None
    }
}

/// Puts a row last in the table at a place, under the next id.
pub fn push_into(list: &mut Vec<Table>, place: usize, cells: RowCells) -> Result<u64, AllocError>
    requires place { place < vec_len list.old }
    requires plain { position (is_named (codes "id")) cells ≡ None }
    requires ids { (table_at place (tables_of list.old.items)).top < MAX_ID }
    ensures ok { OnOk result (tables_of list.new.items ≡ slice_set (tables_of list.old.items) place
        (with_new_row cells (table_at place (tables_of list.old.items)))) }
    ensures id { IfOk result (λ id. id ≡ (table_at place (tables_of list.old.items)).top + 1) }
    ensures err { OnErr result (tables_of list.new.items ≡ tables_of list.old.items) }
    ensures room { HasRoomAt place list.old.items list.new.items }
    ensures held { IsTable (table_at place (tables_of list.old.items)).top (table_at place (tables_of list.old.items)).rows }
{
    let table = &mut list[place];
    let id = table.push(cells)?;
    Ok(id)
}

/// Puts a new row into the table at a place, and tells the row's place.
pub fn put_into(
    list: &mut Vec<Table>,
    place: usize,
    id: u64,
    cells: RowCells,
) -> Result<usize, AllocError>
    requires place { place < vec_len list.old }
    requires positive { 0 < id }
    requires small { id < 2 ^ 63 }
    requires plain { position (is_named (codes "id")) cells ≡ None }
    requires absent { position (λ row. row.id == id) (table_at place (tables_of list.old.items)).rows ≡ None }
    ensures ok { OnOk result (tables_of list.new.items ≡ slice_set (tables_of list.old.items) place
        (with_row_at id cells (with_raised id (table_at place (tables_of list.old.items))))) }
    ensures row { IfOk result (λ row. row ≡ rows_before id (table_at place (tables_of list.old.items)).rows) }
    ensures within { IfOk result (λ row. row ≤ length (table_at place (tables_of list.old.items)).rows) }
    ensures err { OnErr result (tables_of list.new.items ≡ tables_of list.old.items) }
    ensures room { HasRoomAt place list.old.items list.new.items }
    ensures held { IsTable (table_at place (tables_of list.old.items)).top (table_at place (tables_of list.old.items)).rows }
{
    let table = &mut list[place];
    let row = table.put_row(id, cells)?;
    Ok(row)
}

/// Puts other cells into a row of the table at a place, and gives those that it had.
pub fn replace_in(list: &mut Vec<Table>, place: usize, row: usize, cells: RowCells) -> RowCells
    requires place { place < vec_len list.old }
    requires row { row < length (table_at place (tables_of list.old.items)).rows }
    requires plain { position (is_named (codes "id")) cells ≡ None }
    ensures list { list.new.items ≡ change_at place (with_cells row cells) list.old.items }
    ensures tables { tables_of list.new.items ≡ slice_set (tables_of list.old.items) place
        (with_cells row cells (table_at place (tables_of list.old.items))) }
    ensures cells { result ≡ (row_at row (table_at place (tables_of list.old.items))).cells }
    ensures held { IsTable (table_at place (tables_of list.old.items)).top (table_at place (tables_of list.old.items)).rows }
{
    let table = &mut list[place];
    table.replace(row, cells)
}

/// Takes a row of the table at a place away, and gives its cells.
pub fn remove_from(list: &mut Vec<Table>, place: usize, row: usize) -> RowCells
    requires place { place < vec_len list.old }
    requires row { row < length (table_at place (tables_of list.old.items)).rows }
    ensures list { list.new.items ≡ change_at place (without_row row) list.old.items }
    ensures tables { tables_of list.new.items ≡ slice_set (tables_of list.old.items) place
        (without_row row (table_at place (tables_of list.old.items))) }
    ensures cells { result ≡ (row_at row (table_at place (tables_of list.old.items))).cells }
    ensures room { length (content_at place list.new.items).rows < (view_at place list.new.items).room }
    ensures held { IsTable (table_at place (tables_of list.old.items)).top (table_at place (tables_of list.old.items)).rows }
{
    let table = &mut list[place];
    table.remove(row)
}

/// Takes a row away that was put into the table at a place, and gives its cells.
pub fn drop_from(list: &mut Vec<Table>, place: usize, row: usize, top: u64) -> RowCells
    requires { CanDropRow place row top list.old.items }
    ensures list { list.new.items ≡ change_at place (without_put row top) list.old.items }
    ensures cells { result ≡ (row_at row (content_at place list.old.items)).cells }
{
    let table = &mut list[place];
    table.drop_row(row, top)
}

/// Puts a row back that was taken from the table at a place.
pub fn put_back_into(list: &mut Vec<Table>, place: usize, row: usize, id: u64, cells: RowCells)
    requires { CanPutBack place row id cells list.old.items }
    ensures { list.new.items ≡ change_at place (with_row_back row id cells) list.old.items }
{
    let table = &mut list[place];
    table.put_back(row, id, cells);
}

/// Sets the largest id ever given of the table at a place.
pub fn set_top_in(list: &mut Vec<Table>, place: usize, top: u64)
    requires place { place < vec_len list.old }
    requires small { top < 2 ^ 63 }
    requires above { All (λ row. row.id ≤ top) (table_at place (tables_of list.old.items)).rows }
    ensures { tables_of list.new.items ≡ slice_set (tables_of list.old.items) place
        (with_top top (table_at place (tables_of list.old.items))) }
{
    let table = &mut list[place];
    table.set_top(top);
}

/// A table without rows.
pub fn empty_table(alloc: Global, name: CellText, top: u64) -> Table
    requires { top < 2 ^ 63 }
    ensures { result.content ≡ with_top top (new_table name) }
{
    let mut table = Table::new(alloc, name);
    table.set_top(top);
    table
}

pub fn copied(alloc: Global, list: &[Table]) -> Result<Vec<Table>, AllocError>
    ensures { IfOk result (λ copies. tables_of copies.items ≡ tables_of list.now) }
{
    let mut copies = Vec::with_capacity(alloc, list.len())?;
    for table in list {
        copies.push(table.copy(alloc)?)?;
    }
    Ok(copies)
}

/// A table with one row.
pub fn first_table(
    alloc: Global,
    name: CellText,
    id: u64,
    cells: RowCells,
) -> Result<Table, AllocError>
    requires positive { 0 < id }
    requires small { id < 2 ^ 63 }
    requires plain { position (is_named (codes "id")) cells ≡ None }
    ensures { IfOk result (λ table. table.content ≡ with_put id cells (new_table name)) }
{
    let mut table = Table::new(alloc, name);
    table.put_row(id, cells)?;
    Ok(table)
}

/// Puts a table among the others, and tells its place.
pub fn insert_into(list: &mut Vec<Table>, table: Table) -> Result<usize, AllocError>
    requires { HasRisingNames (tables_of list.old.items) }
    ensures place { IfOk result (λ place. place ≡ tables_before table.content.name (tables_of list.old.items)) }
    ensures within { IfOk result (λ place. place ≤ vec_len list.old) }
    ensures list { IfOk result (λ place. list.new.items ≡ insert list.old.items place table) }
    ensures ok { OnOk result (tables_of list.new.items ≡ insert (tables_of list.old.items)
        (tables_before table.content.name (tables_of list.old.items)) table.content) }
    ensures err { OnErr result (list.new.items ≡ list.old.items) }
{
    let place = count_below(list, table.name());
    list.insert(place, table)?;
    Ok(place)
}
