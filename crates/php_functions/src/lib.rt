//! The functions and methods of a tree that have a body, in text order.
#![tactic(auto)]

mod list;
mod walk;

pub use list::functions;
