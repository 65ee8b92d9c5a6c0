//! What the rules of expressions make of what was read.
#![tactic(auto)]

pub mod arrays;
pub mod constants;
pub mod endings;
pub mod heads;
pub mod joins;
pub mod kept;
pub mod lists;
pub mod operators;
pub mod places;
pub mod quotes;
pub mod tails;
pub mod unary;
