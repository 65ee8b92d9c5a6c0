//! Steps of a run: how a statement begins.
#![tactic(auto)]

mod begin;
mod leave;
mod parts;

pub use begin::{begin_quiet, begin_stmt};
pub use parts::evaluate_at;
