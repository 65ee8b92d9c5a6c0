//! The lines that tell what came of loading an application or a copy.
#![tactic(auto)]

mod accepted;
mod kinds;
mod notes;

pub use accepted::accepted_text;
pub use notes::{app_note, copy_note};

#[cfg(test)]
mod tests;
