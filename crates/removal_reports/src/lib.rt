//! The log of removals: the line that is written where a removed file or function is entered, and its reading.
#![tactic(auto)]

mod fields;
mod line;
mod reader;

pub use line::{LogLine, log_line};
pub use reader::{LogFault, read_log_line};

#[cfg(test)]
mod tests;
