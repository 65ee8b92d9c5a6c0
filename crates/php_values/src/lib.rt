//! Values of PHP's profile: their kinds, conversions, comparisons and arithmetic.
#![tactic(auto)]

mod beside;
mod convert;
mod fault;
mod loose;
mod number;
mod op;
mod operands;
mod order;
mod parts;
mod seen;
mod strict;
#[cfg(test)]
mod tests;
#[cfg(test)]
mod tests_of_comparisons;
mod union;
mod value;
mod walk;

pub use convert::{key_of, to_int, to_text, truth};
pub use fault::ValueFault;
pub use loose::loose_eq;
pub use number::{Number, is_numeric, leading_number, normal_number};
pub use op::ArithOp;
pub use order::compare;
pub use seen::{Seen, look_at};
pub use strict::strict_eq;
pub use union::arith;
pub use value::{ArrayValue, Value, copied, copy_value};
pub use walk::Walk;
