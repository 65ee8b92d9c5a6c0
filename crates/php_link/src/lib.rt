//! The program of the PHP files of an application: its files with the variables of all of them numbered as one.
#![tactic(auto)]

mod file;
mod law;
mod names;
mod program;

pub use law::a_numbering_exists;
pub use program::link;
