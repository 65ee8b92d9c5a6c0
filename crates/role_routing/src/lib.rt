//! The roles of an application: their file, the role that a session holds, and keep lists against an application.
#![tactic(auto)]

mod fault;
mod forms;
mod held;
mod read;
mod roles;
#[cfg(test)]
mod tests;

pub use fault::RolesFault;
pub use held::role_held;
pub use read::read_roles;
pub use roles::Roles;
