//! What a run finds by name: the functions that were declared, the files of a program, and those that were entered.
#![tactic(auto)]

mod entered;
mod function;
mod functions;
mod paths;
#[cfg(test)]
mod tests;

pub use entered::Entered;
pub use function::Function;
pub use functions::Functions;
pub use paths::PathTable;
