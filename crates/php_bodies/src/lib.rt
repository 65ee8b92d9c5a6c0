//! The bodies of a program's files and functions, by their entries.
#![tactic(auto)]

mod bodies;
mod collect;
mod files;
mod named;
mod one_file;
mod removed;

pub use bodies::Bodies;
pub use collect::{Body, collect_bodies};
pub use one_file::FileBodies;
