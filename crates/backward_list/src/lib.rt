//! A list that grows at its front.
#![tactic(auto)]

mod list;

pub use list::Backward;
