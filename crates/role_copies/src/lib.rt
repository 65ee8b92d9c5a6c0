//! Copies of an application: a program for each role, and the static files that all of them have.
#![tactic(auto)]

mod alike;
mod copies;
mod fault;
mod making;
mod routing;
#[cfg(test)]
mod tests;

pub use copies::Copies;
pub use fault::CopiesFault;
pub use making::{copies_of, unchanged_copies};
pub use routing::route;
