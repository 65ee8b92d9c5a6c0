//! The tokens of PHP text: `lex` gives them or the first fault, and `line_of` the line of a place.
#![tactic(auto)]

mod body;
mod bytes;
mod code;
mod entry;
pub mod fault;
mod front;
pub mod kinds;
pub mod laws;
mod number;
mod piece;
mod scan;
mod sign;
mod state;
pub mod token;
mod until;

pub use entry::{lex, line_of};
pub use fault::{FormName, LexFault, LexKind};
pub use kinds::{Cast, IndexKey, Kind, Part, Sign};
pub use token::{Token, Tokens};

#[cfg(test)]
mod tests;
