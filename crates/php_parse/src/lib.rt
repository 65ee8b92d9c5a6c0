//! `parse`: the tree of the tokens of a PHP file, or the first token at which they stop being one.
#![tactic(auto)]

mod entry;
mod grammar_actions;

pub use entry::parse;

#[cfg(test)]
mod tests;
