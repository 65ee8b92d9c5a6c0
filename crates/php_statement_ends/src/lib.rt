//! Steps of a run: what a frame of a statement does with an end.
#![tactic(auto)]

mod bodies;
mod lists;
mod resume;

pub use resume::resume_ending;
