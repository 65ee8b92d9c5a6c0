//! Steps of a run: how an expression begins, and what a frame that waits does with a value.
#![tactic(auto)]

mod access;
mod begin;
mod chain;
mod choice;
mod list;
mod operate;
mod quote;
mod resume;

pub use begin::begin_expr;
pub use operate::{before, chained, compared, computed};
pub use quote::variable;
pub use resume::{give, resume_expr};
