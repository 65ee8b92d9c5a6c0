//! The meaning of a script as a list of events, and what a run comes to: begun with the statements of plain pages.
#![tactic(auto)]

mod page_run;

pub use page_run::PageRun;

#[cfg(test)]
mod tests;
