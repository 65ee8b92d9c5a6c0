//! The arguments of PHP's library calls: how many a call takes, what it takes each one for, and why it gives no value.
//!
//! A fault that comes of the count of arguments comes first, then those of the arguments from left to right, then the
//! call's own.
#![tactic(auto)]

mod count;
mod fault;
mod kind;
mod list;

pub use count::{one, one_and_more, one_or_two, three, two, two_or_three, two_to_four};
pub use fault::CallFault;
pub use kind::{
    array_argument, int_argument, int_if_given, int_or, int_row, text_argument, text_or, text_row,
};
pub use list::{MAX_PAIRS, push_value};
