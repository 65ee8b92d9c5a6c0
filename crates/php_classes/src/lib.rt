//! The classes of a program: what is declared, where a member's first declaration stands, and who may see it.
#![tactic(auto)]

mod built_in;
mod class;
mod declare;
mod entries;
mod fault;
mod lineage;
mod look_up;
mod members;
mod refuse;
mod table;
#[cfg(test)]
mod tests;

pub use class::{ClassEntry, Lineage, MemberEntry, MemberKind, MemberRef};
pub use fault::ClassFault;
pub use members::MemberList;
pub use table::ClassTable;
