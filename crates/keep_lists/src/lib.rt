//! Keep lists of roles, held against an application.
#![tactic(auto)]

mod check;
mod known;
#[cfg(test)]
mod tests;

pub use check::check_keep_lists;
