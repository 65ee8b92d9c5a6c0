// One table: its rows in the order of their ids.
ghost use Rattle.std.specs.Prelude.{◌≡◌, ℕ, ◌+◌, ◌-◌, ◌<◌, ◌≤◌, ◌^◌, [], ◌∷◌, ◌++◌, ◌==◌, length, codes, None, OnOk, OnErr, IfOk, IfSome, min, slice_index_or, slice_set};
ghost use Rattle.std.specs.List.{position, insert, remove, All};
ghost use Rattle.tables_keeper.specs.Rows.{is_named, merged, row_size, with_id};
ghost use Rattle.tables_keeper.specs.TableData.{TableView, HasRisingIds, IsTable, no_row, row_place, rows_before, shown, with_new_row, with_cells, without_row, with_row_at, with_raised, with_top, IsGiven};
ghost use Rattle.tables_keeper.specs.Tables.{IsId};
ghost use Rattle.tables_keeper.specs.Undo.{without_put, with_row_back};

use crate::{CellText, MAX_ID, RowCells};
use std::alloc::{AllocError, Global};
use std::marker::Model;
use std::mem;

/// A row with its id.
#[derive(Debug, Drop)]
pub struct Row {
    pub id: u64,
    pub cells: RowCells,
}

/// A table. Contracts see its name, the largest id ever given, its rows, and how many rows it has room for.
#[derive(Debug, Drop)]
pub struct Table {
    name: CellText,
    top: u64,
    rows: Vec<Row>,
}

impl Model for Table {
    ghost use Rattle.std.specs.Prelude.{vec_capacity};
    ghost use Rattle.tables_keeper.specs.TableData.{TableView, IsTable};

    ghost Value = { TableView };

    ghost view = { λ table. record { content = record { name = table.name; top = table.top; rows = table.rows.items }; room = vec_capacity table.rows } };

    ghost invariant = { λ table. IsTable table.top table.rows.items };
}

/// How many rows, from the first on, have ids below this one.
fn count_below(rows: &[Row], id: u64) -> usize
    requires { HasRisingIds rows.now }
    ensures place { result ≡ rows_before id rows.now }
    ensures within { result ≤ length rows.now }
{
    rows.partition_point(|row| row.id < id)
}

fn copied_rows(alloc: Global, rows: &[Row]) -> Result<Vec<Row>, AllocError>
    ensures { IfOk result (λ copies. copies.items ≡ rows.now) }
{
    let mut copies = Vec::with_capacity(alloc, rows.len())?;
    for row in rows {
        copies.push(Row {
            id: row.id,
            cells: row.cells.copy(alloc)?,
        })?;
    }
    Ok(copies)
}

impl Table {
    /// An empty table.
    pub fn new(alloc: Global, name: CellText) -> Self
        ensures { result.content ≡ record { name = name; top = 0; rows = [] } }
    {
        Table {
            name,
            top: 0,
            rows: Vec::new(alloc),
        }
    }

    pub fn copy(&self, alloc: Global) -> Result<Self, AllocError>
        ensures { IfOk result (λ table. table.content ≡ self.now.content) }
    {
        Ok(Table {
            name: self.name.copy(alloc)?,
            top: self.top,
            rows: copied_rows(alloc, &self.rows)?,
        })
    }

    pub fn name(&self) -> &[u8]
        ensures { result.now ≡ self.now.content.name }
    {
        self.name.as_slice()
    }

    /// The largest id ever given.
    pub fn top(&self) -> u64
        ensures top { result ≡ self.now.content.top }
        ensures small { result < 2 ^ 63 }
    {
        self.top
    }

    pub fn rows(&self) -> &[Row]
        ensures { result.now ≡ self.now.content.rows }
    {
        &self.rows
    }

    /// The place of the row of this id.
    pub fn place_of(&self, id: i64) -> Option<usize>
        ensures place { result ≡ row_place id self.now.content.rows }
        ensures given { IfSome result (λ _. IsId id) }
    {
        if id < 0 {
            return None;
        }
        place_of(&self.rows, id.unsigned_abs())
    }

    /// A copy of a row with its id as the first column.
    pub fn shown(&self, alloc: Global, place: usize) -> Result<RowCells, AllocError>
        requires { place < length self.now.content.rows }
        ensures { IfOk result (λ row. row ≡ shown (slice_index_or self.now.content.rows place no_row)) }
    {
        let row = &self.rows[place];
        row.cells.with_id(alloc, row.id)
    }

    /// The id of a row.
    pub fn id_at(&self, place: usize) -> u64
        requires { place < length self.now.content.rows }
        ensures { result ≡ (slice_index_or self.now.content.rows place no_row).id }
    {
        self.rows[place].id
    }

    /// The size of a row.
    pub fn size_at(&self, place: usize) -> u64
        requires { place < length self.now.content.rows }
        ensures { result ≡ min (row_size (slice_index_or self.now.content.rows place no_row).cells) (2 ^ 64 - 1) }
    {
        self.rows[place].cells.size()
    }

    /// A copy of a row's cells with the columns of a given row.
    pub fn merged(
        &self,
        alloc: Global,
        place: usize,
        given: &RowCells,
    ) -> Result<RowCells, AllocError>
        requires { place < length self.now.content.rows }
        ensures ok { IfOk result (λ row. row ≡ merged (slice_index_or self.now.content.rows place no_row).cells given.now) }
        ensures plain { IfOk result (λ row. position (is_named (codes "id")) row ≡ None) }
    {
        let merged = self.rows[place].cells.merged(alloc, given)?;
        Ok(merged)
    }

    /// Puts a new row last, under the next id.
    pub fn push(&mut self, cells: RowCells) -> Result<u64, AllocError>
        requires room { self.old.content.top < 2 ^ 63 - 1 }
        requires plain { position (is_named (codes "id")) cells ≡ None }
        ensures ok { IfOk result (λ id. self.new.content ≡ with_new_row cells self.old.content) }
        ensures id { IfOk result (λ id. id ≡ self.old.content.top + 1) }
        ensures err { OnErr result (self.new.content ≡ self.old.content) }
        ensures kept { self.old.room ≤ self.new.room }
        ensures held { IsTable self.old.content.top self.old.content.rows }
    {
        let id = self.top + 1;
        self.rows.push(Row { id, cells })?;
        self.top = id;
        Ok(id)
    }

    /// Puts other cells into a row, and gives those that it had.
    pub fn replace(&mut self, place: usize, cells: RowCells) -> RowCells
        requires place { place < length self.old.content.rows }
        requires plain { position (is_named (codes "id")) cells ≡ None }
        ensures content { self.new.content ≡ with_cells place cells self.old.content }
        ensures cells { result ≡ (slice_index_or self.old.content.rows place no_row).cells }
        ensures kept { self.new.room ≡ self.old.room }
        ensures held { IsTable self.old.content.top self.old.content.rows }
    {
        let row = &mut self.rows[place];
        mem::replace(&mut row.cells, cells)
    }

    /// Takes a row away, and gives its cells.
    pub fn remove(&mut self, place: usize) -> RowCells
        requires { place < length self.old.content.rows }
        ensures content { self.new.content ≡ without_row place self.old.content }
        ensures cells { result ≡ (slice_index_or self.old.content.rows place no_row).cells }
        ensures kept { self.new.room ≡ self.old.room }
        ensures room { length self.new.content.rows < self.new.room }
        ensures held { IsTable self.old.content.top self.old.content.rows }
    {
        let Row { id: _, cells } = self.rows.remove(place);
        cells
    }

    /// Takes a row away and sets the largest id ever given back, and gives the row's cells.
    pub fn drop_row(&mut self, place: usize, top: u64) -> RowCells
        requires there { place < length self.old.content.rows }
        requires table { IsTable top (remove self.old.content.rows place) }
        ensures content { self.new.content ≡ without_put place top self.old.content }
        ensures cells { result ≡ (slice_index_or self.old.content.rows place no_row).cells }
        ensures kept { self.new.room ≡ self.old.room }
    {
        let Row { id: _, cells } = self.rows.remove(place);
        self.top = top;
        cells
    }

    /// Puts a row back at a place. There is room for it.
    pub fn put_back(&mut self, place: usize, id: u64, cells: RowCells)
        requires there { place ≤ length self.old.content.rows }
        requires table { IsTable self.old.content.top (insert self.old.content.rows place (record { id = id; cells = cells })) }
        requires room { length self.old.content.rows < self.old.room }
        ensures content { self.new.content ≡ with_row_back place id cells self.old.content }
        ensures kept { self.new.room ≡ self.old.room }
    {
        self.rows.insert(place, Row { id, cells }).unwrap();
    }

    /// Puts a new row among the others, behind those of lower ids, and tells its place. There is room for it.
    fn insert_row(&mut self, id: u64, cells: RowCells) -> usize
        requires given { IsGiven self.old.content.top (record { id = id; cells = cells }) }
        requires absent { position (λ row. row.id == id) self.old.content.rows ≡ None }
        requires room { length self.old.content.rows < self.old.room }
        ensures content { self.new.content ≡ with_row_at id cells self.old.content }
        ensures place { result ≡ rows_before id self.old.content.rows }
        ensures within { result ≤ length self.old.content.rows }
        ensures kept { self.new.room ≡ self.old.room }
    {
        let place = count_below(&self.rows, id);
        self.rows.insert(place, Row { id, cells }).unwrap();
        place
    }

    /// Puts a new row under an id that no row has, raises the largest id ever given to it, and tells its place.
    pub fn put_row(&mut self, id: u64, cells: RowCells) -> Result<usize, AllocError>
        requires positive { 0 < id }
        requires small { id < 2 ^ 63 }
        requires plain { position (is_named (codes "id")) cells ≡ None }
        requires absent { position (λ row. row.id == id) self.old.content.rows ≡ None }
        ensures ok { OnOk result (self.new.content ≡ with_row_at id cells (with_raised id self.old.content)) }
        ensures place { IfOk result (λ place. place ≡ rows_before id self.old.content.rows) }
        ensures within { IfOk result (λ place. place ≤ length self.old.content.rows) }
        ensures err { OnErr result (self.new.content ≡ self.old.content) }
        ensures kept { self.old.room ≤ self.new.room }
        ensures held { IsTable self.old.content.top self.old.content.rows }
    {
        self.make_room()?;
        self.raise_top(id);
        let place = self.insert_row(id, cells);
        Ok(place)
    }

    /// Makes room for one row more.
    fn make_room(&mut self) -> Result<(), AllocError>
        ensures content { self.new.content ≡ self.old.content }
        ensures ok { OnOk result (length self.new.content.rows < self.new.room) }
        ensures kept { self.old.room ≤ self.new.room }
        ensures held { IsTable self.old.content.top self.old.content.rows }
    {
        self.rows.reserve(1)
    }

    /// Raises the largest id ever given, if it is lower.
    fn raise_top(&mut self, id: u64)
        requires { id < 2 ^ 63 }
        ensures content { self.new.content ≡ with_raised id self.old.content }
        ensures kept { self.new.room ≡ self.old.room }
    {
        self.top = self.top.max(id);
    }

    /// Sets the largest id ever given.
    pub fn set_top(&mut self, top: u64)
        requires small { top < 2 ^ 63 }
        requires above { All (λ row. row.id ≤ top) self.old.content.rows }
        ensures content { self.new.content ≡ with_top top self.old.content }
        ensures kept { self.new.room ≡ self.old.room }
    {
        self.top = top;
    }
}

/// The place of the row of this id.
fn place_of(rows: &[Row], id: u64) -> Option<usize>
    requires { HasRisingIds rows.now }
    ensures { result ≡ position (λ row. row.id == id) rows.now }
{
    let place = count_below(rows, id);
    if place < rows.len() && rows[place].id == id {
        Some(place)
    } else {
        None
    }
}
