// A row: its columns in their order, none of them twice.
ghost use Rattle.std.specs.Prelude.{◌≡◌, [], ◌++◌, ◌∷◌, ◌-◌, ◌^◌, ◌<◌, length, min, codes, None, Option, is_some, IfOk, OnOk, OnErr, IfSome, fold, slice_index_or, slice_set};
ghost use Rattle.std.specs.List.{position};
ghost use Rattle.std.specs.Option.{option_copied};
ghost use Rattle.tables_keeper.specs.Rows.{HasDistinctNames, cell_at, is_named, put_column, row_size, without_id, merged, with_id, has_text};

use crate::{Cell, CellText, Column};
use std::alloc::{AllocError, Global};
use std::marker::Model;

/// The name under which a row's id is handed out and sought.
pub const ID: &[u8] = b"id";

/// The columns of a row in their order. Contracts see it as the list of its columns, of which no two have one name.
#[derive(Debug, Drop)]
pub struct RowCells {
    columns: Vec<Column>,
}

impl Model for RowCells {
    ghost use Rattle.std.specs.Prelude.{List};
    ghost use Rattle.tables_keeper.specs.declared.cell.Column.{Column};
    ghost use Rattle.tables_keeper.specs.Rows.{HasDistinctNames};

    ghost Value = { List Column };

    ghost view = { λ row. row.columns.items };

    ghost invariant = { λ row. HasDistinctNames row.columns.items };
}

/// The place of the column of this name.
fn place_of(columns: &[Column], name: &[u8]) -> Option<usize>
    ensures { result ≡ position (is_named name.now) columns.now }
{
    columns
        .iter()
        .position(|column| column.name.as_slice() == name)
}

/// Copies of the columns but `id`.
fn copies_without_id(alloc: Global, columns: &[Column]) -> Result<Vec<Column>, AllocError>
    ensures { IfOk result (λ copies. copies.items ≡ without_id columns.now) }
{
    let mut copies = Vec::with_capacity(alloc, columns.len())?;
    for column in columns {
        if column.name.as_slice() != ID {
            copies.push(column.copy(alloc)?)?;
        }
    }
    Ok(copies)
}

/// The id as a column, and copies of the columns behind it.
fn copies_with_id(alloc: Global, id: u64, columns: &[Column]) -> Result<Vec<Column>, AllocError>
    requires { id < 2 ^ 63 }
    ensures { IfOk result (λ copies. copies.items ≡ with_id id columns.now) }
{
    let mut copies = Vec::new(alloc);
    copies.push(Column {
        name: CellText::from_slice(alloc, ID)?,
        cell: Cell::Int(id as i64),
    })?;
    for column in columns {
        copies.push(column.copy(alloc)?)?;
    }
    Ok(copies)
}

impl RowCells {
    pub fn new(alloc: Global) -> Self
        ensures { result ≡ [] }
    {
        RowCells {
            columns: Vec::new(alloc),
        }
    }

    /// How many columns there are.
    pub fn len(&self) -> usize
        ensures { result ≡ length self.now }
    {
        self.columns.len()
    }

    /// The columns in their order.
    pub fn columns(&self) -> &[Column]
        ensures columns { result.now ≡ self.now }
        ensures distinct { HasDistinctNames self.now }
    {
        &self.columns
    }

    /// Whether there is a column of this name.
    pub fn has(&self, name: &[u8]) -> bool
        ensures { result ≡ is_some (position (is_named name.now) self.now) }
    {
        place_of(&self.columns, name).is_some()
    }

    /// The cell at a name.
    pub fn cell(&self, name: &[u8]) -> Option<&Cell>
        ensures { option_copied result ≡ cell_at name.now self.now }
    {
        self.columns
            .iter()
            .find(|column| column.name.as_slice() == name)
            .map(|column| &column.cell)
    }

    /// Puts a column in the place of the one of its name, or else last.
    pub fn put(&mut self, column: Column) -> Result<(), AllocError>
        ensures ok { OnOk result (self.new ≡ put_column self.old column) }
        ensures err { OnErr result (self.new ≡ self.old) }
    {
        match place_of(&self.columns, column.name.as_slice()) {
            Some(place) => self.columns[place] = column,
            None => self.columns.push(column)?,
        }
        Ok(())
    }

    pub fn copy(&self, alloc: Global) -> Result<Self, AllocError>
        ensures { IfOk result (λ row. row ≡ self.now) }
    {
        let mut columns = Vec::with_capacity(alloc, self.columns.len())?;
        for column in &self.columns {
            columns.push(column.copy(alloc)?)?;
        }
        Ok(RowCells { columns })
    }

    /// A copy without the column `id`.
    pub fn without_id(&self, alloc: Global) -> Result<Self, AllocError>
        ensures { IfOk result (λ row. row ≡ without_id self.now) }
    {
        let columns = copies_without_id(alloc, &self.columns)?;
        Ok(RowCells { columns })
    }

    /// A copy with its id as the first column.
    pub fn with_id(&self, alloc: Global, id: u64) -> Result<Self, AllocError>
        requires number { id < 2 ^ 63 }
        requires plain { position (is_named (codes "id")) self.now ≡ None }
        ensures { IfOk result (λ row. row ≡ with_id id self.now) }
    {
        let columns = copies_with_id(alloc, id, &self.columns)?;
        Ok(RowCells { columns })
    }

    /// A copy with the columns of a given row but its column `id`: those that are there in place, the others last.
    pub fn merged(&self, alloc: Global, given: &RowCells) -> Result<Self, AllocError>
        ensures { IfOk result (λ row. row ≡ merged self.now given.now) }
    {
        let mut row = self.copy(alloc)?;
        for column in given.columns() {
            if column.name.as_slice() != ID {
                row.put(column.copy(alloc)?)?;
            }
        }
        Ok(row)
    }

    /// The size in bytes that limits count, or the type's last number where it is more.
    pub fn size(&self) -> u64
        ensures { result ≡ min (row_size self.now) (2 ^ 64 - 1) }
    {
        let mut size = 0u64;
        for column in &self.columns {
            size = size.saturating_add(column.size());
        }
        size
    }
}
