//! What a run comes to, event by event: ticks that are left, bytes that were put out, entries, and the end.
#![tactic(auto)]

mod run;
mod tally;
#[cfg(test)]
mod tests;

pub use run::{End, Run};
pub use tally::Tally;
