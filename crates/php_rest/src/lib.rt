//! What a run holds between two steps: what comes next, and the frames of what waits.
#![tactic(auto)]

mod call_frame;
mod expr_frame;
mod frame;
mod now;
mod outcome;
mod owner;
mod place_frame;
mod stmt_frame;
mod tail;
mod turns;

pub use call_frame::{Argument, CallFrame, Callee, SystemCall};
pub use expr_frame::ExprFrame;
pub use frame::Frame;
pub use now::{Ending, Now, Printed};
pub use outcome::{Outcome, operand_refused, place_refused, text_refused, value_refused};
pub use owner::{Owner, Scene};
pub use php_tables::Function;
pub use place_frame::{PlaceFrame, Target};
pub use stmt_frame::StmtFrame;
pub use tail::Tail;
pub use turns::{Each, Loop, Turns};
