//! Steps of a run: nodes that write variables, with the keys of their places.
#![tactic(auto)]

mod begin;
mod keys;
mod removal;
mod writing;

pub use begin::begin_place;
pub use keys::{resume_behind, resume_place};
pub use removal::unset_all;
pub use writing::{assign, step_place};
