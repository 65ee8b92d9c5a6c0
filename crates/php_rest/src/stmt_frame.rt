// What waits for a part of a statement.

use crate::tail::Tail;
use crate::turns::{Each, Loop, Turns};
use php_tree::expr::Expr;
use php_tree::stmt::{IfArm, Stmt, SwitchArm};
use php_values::Value;
use sqlite_items::Items;

/// What is left of a statement while a part of it runs.
#[derive(Drop)]
pub enum StmtFrame<'a> {
    /// The statements behind the one that runs.
    Then(Tail<'a, Stmt>),
    /// The same of a file, whose functions were declared at its entry.
    ThenOfFile(Tail<'a, Stmt>),
    /// A value is waited for, to put it out, and the expressions behind it.
    EchoOf(Tail<'a, Expr>),
    /// The expressions that are put out once bytes were.
    ThenEcho(Tail<'a, Expr>),
    Discard,
    /// What a test guards, the arms behind it, and what stands behind `else`.
    Choose(&'a Items<Stmt>, Tail<'a, IfArm>, &'a Items<Stmt>),
    /// The test of a loop.
    Test(Loop<'a>),
    /// The body of a loop.
    Body(Loop<'a>),
    /// An expression of a `for` whose value does not count, those behind it, and then a turn.
    ForList(Tail<'a, Expr>, Loop<'a>),
    /// An expression of the test of a `for`, and those behind it.
    ForTest(Tail<'a, Expr>, Loop<'a>),
    /// The array of a `foreach`.
    EachOf(Each<'a>),
    /// The body of a `foreach`, and its turns that are left.
    EachBody(Each<'a>, Turns),
    /// The value of a `switch`, and its arms.
    SwitchOf(&'a Items<SwitchArm>),
    /// The value of a `switch`, what stands behind the arm whose value is waited for, and the arms behind it. The last
    /// part is all arms.
    CaseOf(Value, &'a Items<Stmt>, Tail<'a, SwitchArm>, &'a Items<SwitchArm>),
    /// The arms behind the one that runs, whose values count no more.
    Bodies(Tail<'a, SwitchArm>),
    /// What runs is in a `switch`.
    InSwitch,
    /// What else `unset` removes.
    ThenUnset(Tail<'a, Expr>),
    ReturnOf,
    ThrowOf,
}
