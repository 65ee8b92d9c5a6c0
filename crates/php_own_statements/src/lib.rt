//! Steps of a run: `switch` and `return`, and frames of statements with a value.
#![tactic(auto)]

mod begin;
mod resume;
mod returns;
mod switch;

pub use begin::{begin_return, begin_switch};
pub use resume::resume_value;
