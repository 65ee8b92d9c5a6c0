//! What was read, piece by piece, on a stack.
#![tactic(auto)]

pub mod piece;
pub mod stack;
