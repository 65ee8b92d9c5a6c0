//! What parsing tells: the tree of the tokens of a PHP file, or the first token at which they stop being one.
#![tactic(auto)]

pub mod fault;

pub use fault::{LeftOutName, ParseFault, ParseKind};
