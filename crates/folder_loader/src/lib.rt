//! Loads the application or the copy that stands in a folder: its files are read and parsed, or the first fault is told.
#![tactic(auto)]

pub mod fault;
pub mod law;
mod load;

pub use fault::{AppRefusal, CopyRefusal};
pub use load::{load_app_in, load_copy_in};

#[cfg(test)]
mod tests;
