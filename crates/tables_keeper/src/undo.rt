// What takes changes back without memory.
ghost use Rattle.std.specs.Prelude.{◌≡◌, [], ◌∷◌, length, IfErr, OnOk, OnErr, MatchOption};

use crate::RowCells;
use std::alloc::{AllocFailed, Global};
use std::marker::Model;

/// What takes one change back. `table` is the place of its table among the tables, `row` that of its row in the table.
#[derive(Debug, Drop)]
pub enum Undo {
    /// A table was made, with one row.
    Table {
        table: usize,
    },
    /// A row was put in, where the largest id ever given was `top`.
    Row {
        table: usize,
        row: usize,
        top: u64,
    },
    /// Other cells were put into a row that had these.
    Cells {
        table: usize,
        row: usize,
        cells: RowCells,
    },
    /// A row was taken away.
    Gone {
        table: usize,
        row: usize,
        id: u64,
        cells: RowCells,
    },
}

/// What takes several changes back. Contracts see it as a list, the newest change first.
#[derive(Debug, Drop)]
pub struct UndoLog {
    steps: Vec<Undo>,
}

impl Model for UndoLog {
    ghost use Rattle.std.specs.Prelude.{List, reverse};
    ghost use Rattle.tables_keeper.specs.declared.undo.Undo.{Undo};

    ghost Value = { List Undo };

    ghost view = { λ log. reverse log.steps.items };
}

impl UndoLog {
    /// Of no change.
    pub fn new(alloc: Global) -> Self
        ensures { result ≡ [] }
    {
        UndoLog {
            steps: Vec::new(alloc),
        }
    }

    /// How many changes there are.
    pub fn len(&self) -> usize
        ensures { result ≡ length self.now }
    {
        self.steps.len()
    }

    /// Notes a change. Where there is no memory, it comes back.
    pub fn note(&mut self, undo: Undo) -> Result<(), Undo>
        ensures ok { OnOk result (self.new ≡ undo ∷ self.old) }
        ensures err { OnErr result (self.new ≡ self.old) }
        ensures back { IfErr result (λ given. given ≡ undo) }
    {
        match self.steps.push(undo) {
            Ok(()) => Ok(()),
            Err(AllocFailed { value }) => Err(value),
        }
    }

    /// Takes the newest change off.
    pub fn pop(&mut self) -> Option<Undo>
        ensures { MatchOption result ((self.old ≡ []) × (self.new ≡ [])) (λ undo. self.old ≡ undo ∷ self.new) }
    {
        self.steps.pop()
    }
}
