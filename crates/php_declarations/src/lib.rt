//! Steps of a run: `const`, `static` and declarations of functions, and the statements of a file.
#![tactic(auto)]

mod consts;
mod declared;
mod file;
mod statics;
#[cfg(test)]
mod tests;

pub use declared::{is_declaration, own_declaration};
pub use file::{begin_file_block, hoist};
