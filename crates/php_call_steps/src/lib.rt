//! Steps of a run: calls, from their ticks to the entry of what they call.
#![tactic(auto)]

mod applied;
mod call;

pub use applied::apply;
pub use call::{begin_call, begin_call_var, call_named, resume_argument};
