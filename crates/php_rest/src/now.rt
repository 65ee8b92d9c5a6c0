// What comes next.

use crate::call_frame::Argument;
use crate::owner::Owner;
use crate::tail::Tail;
use crate::turns::{Each, Loop, Turns};
use order_map::ByteText;
use php_meaning::FatalName;
use php_tree::expr::Expr;
use php_tree::stmt::Stmt;
use php_values::Value;
use php_world::Reading;
use sqlite_items::Items;

/// What comes once bytes were put out: a statement goes on, `print` has the value 1, and `exit` ends the run.
#[derive(Clone, Copy, Debug, PartialEq, Eq)]
pub enum Printed {
    Nothing,
    One,
    End,
}

/// How a statement ended.
#[derive(Drop)]
pub enum Ending {
    Normal,
    Returned(Value),
    /// So many loops and switches around the innermost one are left too.
    Breaks(u64),
    Continues(u64),
}

/// What comes next. It is handed on by value.
#[derive(Drop)]
pub enum Now<'a> {
    Evaluate(&'a Expr),
    /// An expression is looked at as `isset`, `empty` and `??` do.
    Probe(&'a Expr),
    /// A node with steps of its own: an assignment, a step, a reference, a call, an include, a constant.
    Node(Reading, &'a Expr),
    /// An expression has a value.
    Give(Value),
    /// A statement ended.
    End(Ending),
    Print(ByteText, Printed),
    Exit,
    /// The run ends at the innermost statement.
    Fail(FatalName),
    /// The same, after a tick.
    FailAfterTick(FatalName),
    /// Statements one after another.
    Block(Tail<'a, Stmt>),
    /// The statements of a file, whose functions were declared at its entry.
    OfFile(Tail<'a, Stmt>),
    /// A function's statement in a file: a tick, and then the statements behind it.
    PassBy(Tail<'a, Stmt>),
    /// One statement, its tick included.
    Run(&'a Stmt),
    /// A turn of a loop, its tick included, and all that come after it.
    Turn(Loop<'a>),
    /// The turns of a `foreach` that are left, each with its tick.
    Each(Each<'a>, Turns),
    /// A file or function is entered, and its end is the end of what comes next.
    Enter(Owner<'a>),
    /// After a tick the function of a name is called with these arguments.
    CallNamed(ByteText, Items<Argument>),
}
