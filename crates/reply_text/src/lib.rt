//! The bytes of replies: those of a script's run, of a static file, and the fixed ones. HTTP/1.1 after RFC 9112.
#![tactic(auto)]

mod fixed;
mod head;
mod header;
mod script;
mod static_file;

pub use fixed::{FixedEnd, VisitEnd, fixed_reply};
pub use header::HeaderLine;
pub use script::{ScriptEnd, ScriptRun, reply_bytes};
pub use static_file::static_head;

#[cfg(test)]
mod tests;
