//! Every accepted copy is the copy of an application's trees, without a condition: a law, for which no code runs.
#![tactic(auto)]

pub mod law;
