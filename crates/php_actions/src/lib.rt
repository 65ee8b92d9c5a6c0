//! What the rules of the grammar make of what was read.
#![tactic(auto)]

mod absent;
mod table;
#[cfg(test)]
mod tests;

pub use php_expression_actions::joins::join;
pub use table::{leaf, reduce};
