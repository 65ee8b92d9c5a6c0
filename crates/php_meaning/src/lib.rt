//! The meaning of a program: definitions over plain data, and the laws about them.
#![tactic(auto)]

pub mod fatal;
pub mod law;

pub use fatal::FatalName;
