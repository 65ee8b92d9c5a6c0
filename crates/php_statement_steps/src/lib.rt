//! Steps of a run: parts of statements.
#![tactic(auto)]

mod echo;
mod foreach;
mod kind;
mod list;
mod looping;
mod resume;
mod scene;
mod switch;

pub use echo::{begin_arms, begin_echo, print_inline};
pub use foreach::begin_each;
pub use kind::{StmtKind, kind_of};
pub use list::begin_block;
pub use looping::{again, begin_list, turn};
pub use resume::resume_stmt;
pub use scene::stand_at;
pub use switch::begin_bodies;
