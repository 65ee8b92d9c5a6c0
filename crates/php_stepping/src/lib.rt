//! What a step of a run has to do with the meaning, whatever comes next.
#![tactic(auto)]

mod stepped;
mod steps;

pub use stepped::Stepped;
pub use steps::Steps;
