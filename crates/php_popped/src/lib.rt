//! What is popped from the stack of what was read, where it is known of which kind it is.
#![tactic(auto)]

pub mod lists;
pub mod parts;
pub mod pop;
pub mod token;
