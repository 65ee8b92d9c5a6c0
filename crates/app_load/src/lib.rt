//! Which applications and copies are accepted, and what they are made of.
#![tactic(auto)]

pub mod app;
pub mod entry;
pub mod fault;
mod finding;
pub mod judge;
pub mod law;
mod stub;
mod twice;

pub use app::AppFile;
pub use entry::{Entry, Level};
pub use fault::{AppFault, AppKind, CopyFault, CopyKind, LimitName};

#[cfg(test)]
mod tests;
