//! The locks of numbered slots, each with a value, an administrator's pin and a generation.
//! A lock is taken by one atomic step, which reads the pin and the generation that the holder then has.
//! A slot's word has bit 0 taken, bits 1 to 32 the generation (the visits field, which counts releases),
//! bits 33 to 56 the change number (how often the slot was pinned), bits 57 to 63 the pin (a role, 0 for none).
#![tactic(auto)]

mod alone;
mod alone_opens;
mod alone_turns;
mod close;
mod lane;
mod lane_turns;
mod open;
mod passes;
mod pins;
mod plays;
mod store;
mod take;
#[cfg(test)]
mod tests;
mod turns;
mod turnstile;
mod view;
mod waits;
mod word;

pub use alone::AloneTurns;
pub use close::{CloseFault, Closed};
pub use lane::Lane;
pub use store::{AdminPass, Pass, SharedTurns};
pub use take::{Pinned, Take, TakeWait, Taken};
pub use turnstile::Turnstile;
pub use view::{Change, Entry, Hold, Item, LockRule, Opening, View};
