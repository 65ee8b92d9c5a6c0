//! Constants by name: the language's own, those that say where they stand, and those of a run.
#![tactic(auto)]

mod name;
mod named;
#[cfg(test)]
mod tests;

pub use named::constant_value;
