//! Loads applications and copies of them: their files are read into trees, or the first fault is told.
#![tactic(auto)]

pub mod fault;
mod files;
mod functions;
pub mod law;
mod load;
mod parser;
mod text;

pub use load::{load_app, load_copy};
pub use parser::Parser;
pub use text::judge_text;

#[cfg(test)]
mod tests;
