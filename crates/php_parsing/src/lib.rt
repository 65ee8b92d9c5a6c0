//! The tree of the tokens of a PHP file, or the first token at which they stop being one, whatever makes the nodes.
#![tactic(auto)]

pub mod actions;
mod failing;
pub mod source;
pub mod tree;

pub use actions::Actions;
pub use tree::parse_by;
