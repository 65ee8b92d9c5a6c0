//! Syntax trees of PHP files, and what other crates ask of them.
#![tactic(auto)]

pub mod decl;
pub mod expr;
pub mod file;
pub mod name;
pub mod stmt;
#[cfg(test)]
mod tests;
