//! Reads the tokens of a file over the grammar's table.
#![tactic(auto)]

mod descent;
pub mod file;
mod levels;
pub mod pieces;
mod reader;

pub use file::read_file;
pub use pieces::Pieces;
