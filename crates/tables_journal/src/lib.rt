//! What keeps the application's tables: the bytes of a row, the journal's text, and keepers in memory and over a file.
#![tactic(auto)]

mod change_text;
mod journal;
mod journal_keeper;
mod keeper;
mod keeper_memory;
mod row_text;
mod texts;

pub use journal::{JournalFault, Loaded, commit_bytes, read_journal};
pub use journal_keeper::JournalKeeper;
pub use keeper::{Keeper, KeeperFault};
pub use keeper_memory::KeeperMem;
pub use row_text::{RowFault, read_row, row_bytes};

#[cfg(test)]
mod tests;
