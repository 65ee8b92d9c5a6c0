//! The grammar of PHP files, as a table, and its laws.
#![tactic(auto)]

pub mod choice;
pub mod detail;
mod expr_choice;
pub mod law;
pub mod lexeme;
pub mod part;
pub mod rules;
mod stmt_choice;
#[cfg(test)]
mod tests;
pub mod token;
pub mod words;
