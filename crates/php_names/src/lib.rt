//! Names that are told apart by their bytes or in any ASCII case, and tables by name.
#![tactic(auto)]

mod lower;
mod table;
#[cfg(test)]
mod tests;

pub use lower::{LowerName, is_word};
pub use table::NameTable;
