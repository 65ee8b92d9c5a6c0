//! The state of a run, as the world of the meaning sees it.
#![tactic(auto)]

mod program;
mod state;

pub use program::{Program, ProgramFile};
pub use state::State;
