//! The machine: it takes one step after another, counts ticks, puts bytes out and enters files and functions, to the end of the run.
#![tactic(auto)]

mod advance;
mod enter;
mod events;
mod machine;
mod one;
mod opening;
mod script;

pub use machine::{Machine, Next};
pub use opening::{Input, begin};
pub use script::run_script;
