//! The terms that every crate of Less shares: counts of faults and their causes, lines, decimal numbers, forms of names.
#![tactic(auto)]

mod decimals;
mod forms;
mod lines;
mod paths;

pub use decimals::{read_decimal, written_numbers};
pub use forms::is_role;
pub use lines::{count_lines, count_newlines};
pub use paths::{is_function_name, is_path};

/// Want of memory: the one answer that every call which allocates may give at any time.
pub type Memory = std::alloc::AllocError;

#[cfg(test)]
mod tests;
