//! An ordered array: pairs of a key and a value in the order in which their keys came, with the next free number key.
#![tactic(auto)]

mod entry;
mod few;
mod index;
mod key;
mod map;
mod place;
mod slots;
#[cfg(test)]
mod tests;
mod text;
mod values;

pub use key::Key;
pub use map::{AppendFault, OrderMap};
pub use place::Place;
pub use text::ByteText;
pub use values::Values;
