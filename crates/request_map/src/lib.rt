//! Requests in the profile of HTTP: what is read of a link, what is refused, and which file a request asks for.
#![tactic(auto)]

mod checks;
mod fault;
mod head;
mod reading;
mod request;
mod routes;
mod scan;

pub use fault::RequestFault;
pub use reading::read_request;
pub use request::{WebRequest, request_of};
pub use routes::{Route, file_path, route_of};

/// The greatest length of a head, in bytes, empty lines in front of it among them.
pub const MAX_HEAD_BYTES: usize = 16_384;

/// The greatest count of headers.
pub const MAX_HEADERS: usize = 64;

/// The greatest length of a body, in bytes.
pub const MAX_BODY_BYTES: usize = 1_048_576;

#[cfg(test)]
mod tests;
