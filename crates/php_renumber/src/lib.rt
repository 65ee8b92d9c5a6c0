//! Copies of trees whose variables have other numbers.
#![tactic(auto)]

mod expression;
mod names;
mod numbers;
mod part;
mod statement;

pub use expression::{expr, exprs};
pub use numbers::Numbers;
pub use statement::{stmt, stmts};
