//! Calls of a program's functions: how parameters get their values, how a function is entered, and what its end gives.
#![tactic(auto)]

mod argument;
mod back;
mod bound;
mod enter;
mod parameter;
mod parameters;

pub use back::end_call;
pub use enter::call_function;
