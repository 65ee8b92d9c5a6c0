//! The entries of an application: its PHP files and their functions, and the ordinal of each.
#![tactic(auto)]

mod listed;
mod numbers;

pub use listed::entries;
pub use numbers::ordinal;
