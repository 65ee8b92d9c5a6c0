//! Names of functions and classes in parsed trees are words: a law, for which no code runs.
#![tactic(auto)]

pub mod law;
