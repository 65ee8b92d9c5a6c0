//! The library's calls by their names.
#![tactic(auto)]

mod call;
mod named;
#[cfg(test)]
mod tests;

pub use call::{LibraryCall, SystemCall};
pub use named::library_named;
