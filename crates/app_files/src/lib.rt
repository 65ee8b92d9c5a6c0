//! The files of applications and of copies: in order, within the limits of the whole, and kept.
#![tactic(auto)]

mod app;
mod file_set;
mod limits;
mod order;

pub use app::{App, Program};
pub use file_set::FileSet;
pub use limits::{MAX_FILES, MAX_PHP_BYTES, MAX_STATIC_BYTES, first_limit, is_php};
pub use order::{one_order, put_in_order};

#[cfg(test)]
mod tests;
