//! What a name calls, and how the arguments of a call are handed over.
#![tactic(auto)]

mod callee;
mod declaring;
mod handing;
#[cfg(test)]
mod tests;

pub use callee::{callee_of, is_taken};
pub use declaring::declare;
pub use handing::{Passing, handed_over};
