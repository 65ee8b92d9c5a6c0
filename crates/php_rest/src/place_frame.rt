// What waits for the keys and the value of a place.

use crate::tail::Tail;
use php_tree::expr::{Access, AssignOp, Expr, StepOp};
use php_world::Step;
use sqlite_items::{Boxed, Items};

/// What a path of keys into a variable is for.
#[derive(Drop)]
pub enum Target<'a> {
    /// `=` and its kin, and the right side.
    Assign(u32, AssignOp, &'a Boxed<Expr>),
    /// `++` and `--`.
    Step(u32, StepOp),
    /// `unset`, and what else it removes.
    Unset(u32, Tail<'a, Expr>),
}

/// What is left of a node that writes a variable. Variables stand by their numbers.
#[derive(Drop)]
pub enum PlaceFrame<'a> {
    /// The path so far, what stands behind the key that is evaluated, and what the path is for.
    KeyIn(Items<Step>, Tail<'a, Access<Expr>>, Target<'a>),
    /// The path so far, and what stands behind it.
    KeysBehind(Items<Step>, Tail<'a, Access<Expr>>, Target<'a>),
    /// A value is waited for, for a place.
    AssignTo(u32, Items<Step>, AssignOp),
}
