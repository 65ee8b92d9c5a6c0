//! What the product reaches outside itself. Each object counts its faults and may tell its content; each stands in
//! memory and over the system.
#![tactic(auto)]

mod clock;
mod clock_memory;
mod clock_real;
mod fault;
mod folder;
mod folder_memory;
mod folder_real;
mod ids;
mod ids_memory;
mod ids_real;
mod link;
mod link_memory;
mod link_real;
mod sink;
mod sink_memory;
mod sink_real;

pub use clock::{Clock, MAX_MOMENT};
pub use clock_memory::ClockMem;
pub use clock_real::ClockReal;
pub use fault::{FolderFault, OutsideFault};
pub use folder::{Folder, Found};
pub use folder_memory::FolderMem;
pub use folder_real::FolderReal;
pub use ids::Ids;
pub use ids_memory::IdsMem;
pub use ids_real::IdsReal;
pub use link::Link;
pub use link_memory::LinkMem;
pub use link_real::LinkReal;
pub use sink::Sink;
pub use sink_memory::SinkMem;
pub use sink_real::SinkReal;

#[cfg(test)]
mod tests;
