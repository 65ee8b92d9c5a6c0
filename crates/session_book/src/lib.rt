//! Sessions: their ids, the values that they keep, their slots, and what a run leaves in its slot.
#![tactic(auto)]

mod after;
mod id;
mod mark;
mod read;
mod size;
mod slot;
#[cfg(test)]
mod tests;
mod text;
mod value;
mod write;

pub use after::{SessionState, cookie_after, run_id, slot_after};
pub use id::{SessionId, id_text, read_id};
pub use read::to_array;
pub use size::size_of_session;
pub use slot::{Session, SlotValue, is_live, live_session};
pub use value::SessionValue;
pub use write::from_array;
