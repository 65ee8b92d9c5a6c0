//! What is made of operands, operators and the parts of texts.
#![tactic(auto)]

pub mod names;
pub mod operand;
pub mod operator;
pub mod part;
pub mod quote;
