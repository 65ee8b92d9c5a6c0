//! The files of an application, or of a copy of it, read from a folder.
#![tactic(auto)]

pub mod fault;
mod paths;
mod texts;

pub use fault::TextsFault;
pub use paths::{is_part, part_paths};
pub use texts::read_texts;

#[cfg(test)]
mod tests;
