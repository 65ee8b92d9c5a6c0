// What waits for the end of what runs.

use crate::call_frame::CallFrame;
use crate::expr_frame::ExprFrame;
use crate::place_frame::PlaceFrame;
use crate::stmt_frame::StmtFrame;

/// What waits for the end of what runs. Frames stand in a list, the newest first.
#[derive(Drop)]
pub enum Frame<'a> {
    OfExpr(ExprFrame<'a>),
    OfPlace(PlaceFrame<'a>),
    OfStmt(StmtFrame<'a>),
    OfCall(CallFrame<'a>),
}
