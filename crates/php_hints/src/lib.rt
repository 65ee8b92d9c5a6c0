//! What hints ask of values, and what they make of them.
#![tactic(auto)]

mod convert;
mod hint;
#[cfg(test)]
mod tests;

pub use hint::{given_by, taken};
