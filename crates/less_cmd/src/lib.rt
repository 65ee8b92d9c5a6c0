//! The commands of Less. `less_run` is the program over the objects that it is handed.
#![tactic(auto)]

mod answer;
mod check;
mod play;
mod reply;
mod run;
mod status;
mod words;

pub use run::less_run;

#[cfg(test)]
mod tests;
