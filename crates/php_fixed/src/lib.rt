//! Values of constant expressions: defaults of parameters, and what `const` and `static` give.
#![tactic(auto)]

mod element;
mod link;
mod named;
mod value;

pub use value::fixed;
