//! What it means to have read a part of a file, and what waits while its last part is read.
#![tactic(auto)]

mod file_fault;
mod stop;
mod waiting;

pub use file_fault::FileFault;
pub use stop::Stop;
pub use waiting::Waiting;
