//! What the rules of statements and declarations make of what was read.
#![tactic(auto)]

pub mod branches;
pub mod classes;
mod common;
pub mod control;
pub mod decls;
pub mod members;
pub mod params;
pub mod simple;
