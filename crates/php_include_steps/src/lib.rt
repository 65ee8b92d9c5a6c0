//! Steps of a run: includes, and constants by name.
#![tactic(auto)]

mod back;
mod begin;
mod enter;
mod include;
#[cfg(test)]
mod tests;

pub use back::end_include;
pub use begin::{begin_constant, begin_include};
pub use include::resume_include;
