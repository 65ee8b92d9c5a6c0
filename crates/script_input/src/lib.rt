//! What a script is given of a request.
#![tactic(auto)]

mod form;
mod given;
mod input;
mod server;
#[cfg(test)]
mod tests;

pub use given::{cookie_of, get_of, post_of, request_of};
pub use input::{ScriptInput, script_input};
pub use server::server_of;
