// What waits for a value of an expression.

use order_map::ByteText;
use php_tree::expr::{Access, Branch, ChainOp, CompareOp, Expr, Item, QuotePart, UnaryOp};
use php_values::Value;
use php_world::Reading;
use sqlite_items::Boxed;

/// What is left of an expression while a part of it is evaluated.
#[derive(Drop)]
pub enum ExprFrame<'a> {
    /// What stands behind a chain's first operand.
    Links(&'a [(ChainOp, Expr)]),
    /// The left operand, and what stands behind the right one.
    RightOf(ChainOp, Value, &'a [(ChainOp, Expr)]),
    CompareWith(CompareOp, &'a Boxed<Expr>),
    CompareRight(CompareOp, Value),
    Before(UnaryOp),
    Branches(&'a [Branch<Expr>]),
    UnlessNull(&'a Boxed<Expr>),
    IsEmpty,
    AllSet(&'a [Expr]),
    ExitWith,
    PrintOf,
    /// `instanceof`, which is false as long as there are no objects.
    InstanceOf,
    CloneOf,
    /// The text so far, and the parts behind the one that is evaluated.
    Quoted(ByteText, &'a [QuotePart<Expr>]),
    /// The array so far, and the items behind the one whose value is evaluated.
    ItemOf(Value, &'a [Item<Expr>]),
    /// The array so far, the value behind the key that is evaluated, and the items behind both.
    KeyOf(Value, &'a Expr, &'a [Item<Expr>]),
    /// The array so far, the key, and the items behind them.
    PairOf(Value, Value, &'a [Item<Expr>]),
    /// What stands behind the head of a post.
    Accessed(Reading, &'a [Access<Expr>]),
    /// What is indexed, and what stands behind the index.
    IndexOf(Reading, Value, &'a [Access<Expr>]),
}
