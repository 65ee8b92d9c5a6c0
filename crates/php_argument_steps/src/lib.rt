//! Steps of a run: what is called, and the arguments of a call, one after another.
#![tactic(auto)]

mod arguments;
mod begin;
mod handed;
mod reached;

pub use arguments::resume_argument;
pub use begin::{begin_call, begin_call_named, begin_call_var};
pub use reached::Reached;
