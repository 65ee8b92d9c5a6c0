//! Calls of the library: what is done once their arguments were evaluated.
#![tactic(auto)]

mod apply;
mod changes;
mod constants;
mod outcome;
mod system;
mod taking;
#[cfg(test)]
mod tests;
mod values;

pub use apply::apply_library;
