//! The variables of a run: cells, names of cells, and nested reads and writes.
#![tactic(auto)]

mod cell;
mod fault;
mod read;
mod reading;
mod scopes;
mod stack;
mod step;
mod stepping;
mod store;
#[cfg(test)]
mod tests;
mod unset;
mod write;

pub use cell::{Cell, Held};
pub use fault::PlaceFault;
pub use read::read_value;
pub use reading::Reading;
pub use scopes::Scopes;
pub use step::{Change, Step};
pub use stepping::{Direction, stepped};
pub use store::Store;
pub use unset::unset_value;
pub use write::write_value;
