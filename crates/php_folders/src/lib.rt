//! Paths: their segments, and the file that an include names.
#![tactic(auto)]

mod include;
mod segments;
#[cfg(test)]
mod tests;

pub use include::file_named;
pub use segments::folder_text;
