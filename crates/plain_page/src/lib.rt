//! The pages that are played so far: text outside of code, `echo` of literal texts, and `;`.
#![tactic(auto)]

mod page;
mod plain;

pub use page::run_files;

#[cfg(test)]
mod tests;
