//! The application's tables, the steps on them, and what keeps them.
#![tactic(auto)]

mod cell;
mod limits;
mod list;
mod operation;
mod reads;
mod row;
mod table;
mod tables;
mod text;
mod undo;

pub use cell::{Cell, Column};
pub use limits::{MAX_COLUMNS, MAX_ID, MAX_ROW_SIZE, MAX_ROWS, MAX_SIZE, MAX_TABLES};
pub use operation::{Change, RowList, Step, TableOp, TableRefusal, TableReply};
pub use row::{ID, RowCells};
pub use tables::Tables;
pub use text::CellText;
pub use undo::{Undo, UndoLog};

#[cfg(test)]
mod tests;
