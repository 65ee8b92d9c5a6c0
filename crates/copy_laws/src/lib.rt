//! Every accepted copy is the copy of an application's trees: definitions and laws, for which no code runs.
#![tactic(auto)]

pub mod law;
