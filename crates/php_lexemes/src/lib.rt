//! The tokens of a text as the grammar sees them.
#![tactic(auto)]

mod keys;
mod list;
mod names;
mod signs;
mod sorts;
mod words;

pub use list::{Numbered, lexemes};
pub use words::word_sort;

#[cfg(test)]
mod tests;
