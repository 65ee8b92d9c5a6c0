//! Parameters and cookies of requests, as arrays.
#![tactic(auto)]

mod cookies;
mod nested;
mod pairs;
mod path;
mod step;
#[cfg(test)]
mod tests;

pub use cookies::add_cookies;
pub use nested::set_over;
pub use pairs::{parameters, text_of};

/// So many pairs of a form count, from its beginning.
pub const MAX_PAIRS: usize = 1_000;

/// So many brackets may stand in a name.
pub const MAX_BRACKETS: usize = 8;
