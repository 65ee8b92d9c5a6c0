// A cell of a row, and a column: a cell with its name.
ghost use Rattle.std.specs.Prelude.{◌≡◌, ◌-◌, ◌^◌, min, IfOk};
ghost use Rattle.std.specs.Str.{bytes_eq};
ghost use Rattle.tables_keeper.specs.Cells.{text_form, cell_size, column_size};

use crate::CellText;
use itoa::Buffer;
use std::alloc::{AllocError, Global};

/// What a row holds at a column.
#[derive(Debug, Drop)]
pub enum Cell {
    Null,
    Bool(bool),
    Int(i64),
    Text(CellText),
}

/// A cell with the name of its column.
#[derive(Debug, Drop)]
pub struct Column {
    pub name: CellText,
    pub cell: Cell,
}

impl Cell {
    pub fn copy(&self, alloc: Global) -> Result<Self, AllocError>
        ensures { IfOk result (λ cell. cell ≡ self.now) }
    {
        match self {
            Cell::Null => Ok(Cell::Null),
            Cell::Bool(truth) => Ok(Cell::Bool(*truth)),
            Cell::Int(number) => Ok(Cell::Int(*number)),
            Cell::Text(text) => Ok(Cell::Text(text.copy(alloc)?)),
        }
    }

    /// Whether these bytes are the cell's text form.
    pub fn has_text(&self, text: &[u8]) -> bool
        ensures { result ≡ bytes_eq (text_form self.now) text.now }
    {
        match self {
            Cell::Null | Cell::Bool(false) => text.is_empty(),
            Cell::Bool(true) => text == b"1".as_slice(),
            Cell::Int(number) => Buffer::new().format(*number).as_bytes() == text,
            Cell::Text(own) => own.as_slice() == text,
        }
    }

    /// Whether both have the same text form.
    pub fn same_text(&self, other: &Cell) -> bool
        ensures { result ≡ bytes_eq (text_form self.now) (text_form other.now) }
    {
        match other {
            Cell::Null | Cell::Bool(false) => self.has_text(b""),
            Cell::Bool(true) => self.has_text(b"1"),
            Cell::Int(number) => self.has_text(Buffer::new().format(*number).as_bytes()),
            Cell::Text(text) => self.has_text(text.as_slice()),
        }
    }

    /// The size in bytes that limits count, or the type's last number where it is more.
    pub fn size(&self) -> u64
        ensures { result ≡ min (cell_size self.now) (2 ^ 64 - 1) }
    {
        match self {
            Cell::Null | Cell::Bool(_) => 1,
            Cell::Int(_) => 9,
            Cell::Text(text) => (text.as_slice().len() as u64).saturating_add(5),
        }
    }
}

impl Column {
    pub fn copy(&self, alloc: Global) -> Result<Self, AllocError>
        ensures { IfOk result (λ column. column ≡ self.now) }
    {
        Ok(Column {
            name: self.name.copy(alloc)?,
            cell: self.cell.copy(alloc)?,
        })
    }

    /// The size in bytes that limits count, or the type's last number where it is more.
    pub fn size(&self) -> u64
        ensures { result ≡ min (column_size self.now) (2 ^ 64 - 1) }
    {
        (self.name.as_slice().len() as u64)
            .saturating_add(5)
            .saturating_add(self.cell.size())
    }
}
