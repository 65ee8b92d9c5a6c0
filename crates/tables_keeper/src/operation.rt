// The operations on tables, what they answer, and the changes that they make.
ghost use Rattle.std.specs.Prelude.{◌≡◌, [], ◌∷◌, ◌++◌, length, OnOk, OnErr};

use crate::{CellText, RowCells, Undo};
use std::alloc::{AllocError, Global};
use std::marker::Model;

/// An operation on the tables.
#[derive(Debug, Drop)]
pub enum TableOp {
    Get {
        table: CellText,
        id: i64,
    },
    All {
        table: CellText,
    },
    /// The rows whose cell at the column has this text form.
    Find {
        table: CellText,
        column: CellText,
        text: CellText,
    },
    /// Where `unique` is not empty, no other row may have the text form that the given row has at that column.
    Insert {
        table: CellText,
        row: RowCells,
        unique: CellText,
    },
    Update {
        table: CellText,
        id: i64,
        row: RowCells,
    },
    Delete {
        table: CellText,
        id: i64,
    },
}

/// Why an operation was refused. It then changed nothing.
#[derive(Clone, Copy, Debug, PartialEq, Eq)]
pub enum TableRefusal {
    NoTable,
    NoRow,
    Duplicate,
    Limit,
}

/// Rows, each with its id as the first column. Contracts see it as the list of the rows.
#[derive(Debug, Drop)]
pub struct RowList {
    rows: Vec<RowCells>,
}

impl Model for RowList {
    ghost use Rattle.std.specs.Prelude.{List};
    ghost use Rattle.tables_keeper.specs.declared.cell.Column.{Column};

    ghost Value = { List (List Column) };

    ghost view = { λ list. list.rows.items };
}

impl RowList {
    pub fn new(alloc: Global) -> Self
        ensures { result ≡ [] }
    {
        RowList {
            rows: Vec::new(alloc),
        }
    }

    /// How many rows there are.
    pub fn len(&self) -> usize
        ensures { result ≡ length self.now }
    {
        self.rows.len()
    }

    /// The rows in their order.
    pub fn rows(&self) -> &[RowCells]
        ensures { result.now ≡ self.now }
    {
        &self.rows
    }

    /// Puts a row last.
    pub fn push(&mut self, row: RowCells) -> Result<(), AllocError>
        ensures ok { OnOk result (self.new ≡ self.old ++ row ∷ []) }
        ensures err { OnErr result (self.new ≡ self.old) }
    {
        self.rows.push(row)?;
        Ok(())
    }
}

/// What an operation answers.
#[derive(Debug, Drop)]
pub enum TableReply {
    Row(RowCells),
    Rows(RowList),
    /// The id of a row that was inserted.
    Id(i64),
    Done,
    Refused(TableRefusal),
}

/// What an operation changed. The id is at least 1, and the row of a `Put` has no column `id`.
#[derive(Debug, Drop)]
pub enum Change {
    Put {
        table: CellText,
        id: i64,
        row: RowCells,
    },
    Drop {
        table: CellText,
        id: i64,
    },
}

/// What an operation answers, its change if it made one, and what takes it back.
#[derive(Debug, Drop)]
pub struct Step {
    pub reply: TableReply,
    pub change: Option<Change>,
    pub undo: Option<Undo>,
}
