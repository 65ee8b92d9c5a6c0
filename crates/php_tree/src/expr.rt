//! Expressions. They hold no statements.

ghost use Rattle.std.specs.List.{list_all};
ghost use Rattle.std.specs.Prelude.{◌≡◌};
ghost use Rattle.php_tree.specs.ExpressionOf.{expression_of, accesses_of};
ghost use Rattle.php_tree.specs.Line.{line_of};
ghost use Rattle.php_tree.specs.Place.{is_root, is_place, only_steps};
ghost use Rattle.php_tree.specs.Steps.{is_step};

use crate::name::{ClassName, ConstName, FunName, MemberName};
use sqlite_items::{Boxed, Items};

/// The operators of the levels that group to the left, but for `? :`.
#[derive(Clone, Copy, Debug, PartialEq, Eq)]
pub enum ChainOp {
    /// `or`
    LowOr,
    /// `xor`
    LowXor,
    /// `and`
    LowAnd,
    /// `||`
    Or,
    /// `&&`
    And,
    Add,
    Sub,
    /// `.`
    Join,
    Mul,
    Div,
    /// `%`
    Rem,
}

/// The operators of the two levels that do not group.
#[derive(Clone, Copy, Debug, PartialEq, Eq)]
pub enum CompareOp {
    Equal,
    /// `!=` and `<>`
    NotEqual,
    Identical,
    NotIdentical,
    /// `<=>`
    Order,
    Less,
    LessEqual,
    Greater,
    GreaterEqual,
}

#[derive(Clone, Copy, Debug, PartialEq, Eq)]
pub enum AssignOp {
    Set,
    Add,
    Sub,
    Mul,
    Div,
    Join,
    Rem,
}

#[derive(Clone, Copy, Debug, PartialEq, Eq)]
pub enum UnaryOp {
    Not,
    Plus,
    Minus,
    /// `@`
    Silence,
    ToInt,
    ToText,
    ToBool,
    ToArray,
}

/// `++` and `--`, before and after their place.
#[derive(Clone, Copy, Debug, PartialEq, Eq)]
pub enum StepOp {
    IncrementBefore,
    DecrementBefore,
    IncrementAfter,
    DecrementAfter,
}

#[derive(Clone, Copy, Debug, PartialEq, Eq)]
pub enum IncludeKind {
    Include,
    IncludeOnce,
    Require,
    RequireOnce,
}

/// An item of an array.
#[derive(Drop)]
pub enum Item<E> {
    Value(E),
    Pair(E, E),
}

/// What stands after a `?`, or after a `?:`.
#[derive(Drop)]
pub enum Branch<E> {
    Full(E, E),
    Short(E),
}

/// What stands after the head of a post or a place.
#[derive(Drop)]
pub enum Access<E> {
    Index(E),
    /// `[ ]`, which stands only at the end of an assignment's left side.
    Append,
    Property(MemberName),
    Method(MemberName, Items<E>),
}

/// `k` in `$v[k]` of a text: a number, a text, or a variable by its number.
#[derive(Drop)]
pub enum QuoteKey {
    Int(i64),
    Text(Items<u8>),
    Var(u32),
}

/// A part of a text with interpolation. Variables stand by their numbers.
#[derive(Drop)]
pub enum QuotePart<E> {
    Bytes(Items<u8>),
    Var(u32),
    Index(u32, QuoteKey),
    Property(u32, MemberName),
    /// What stands between `{$` and `}`, with the `$`.
    Embedded(E),
}

/// An expression. The last field is the line of its first token, from 1. A variable stands by its
/// number in the file's list of names. A place is a `Var`, a `StaticProperty`, or a `Post` over one
/// of them whose accesses are indexes and properties.
#[derive(Drop)]
pub enum Expr {
    Int(i64, u32),
    Text(Items<u8>, u32),
    Quote(Items<QuotePart<Expr>>, u32),
    Var(u32, u32),
    Constant(ConstName, u32),
    /// `array(..)` and `[..]`
    Array(Items<Item<Expr>>, u32),
    Paren(Boxed<Expr>, u32),
    Isset(Items<Expr>, u32),
    Empty(Boxed<Expr>, u32),
    Exit(u32),
    ExitWith(Boxed<Expr>, u32),
    /// Without parentheses there are no arguments.
    New(ClassName, Items<Expr>, u32),
    NewVar(u32, Items<Expr>, u32),
    Call(FunName, Items<Expr>, u32),
    CallVar(u32, Items<Expr>, u32),
    ClassConstant(ClassName, MemberName, u32),
    StaticCall(ClassName, MemberName, Items<Expr>, u32),
    StaticProperty(ClassName, MemberName, u32),
    /// `X::class`
    ClassText(ClassName, u32),
    Post(Boxed<Expr>, Items<Access<Expr>>, u32),
    /// The first operand, and each operator of one level with the operand after it.
    Chain(Boxed<Expr>, Items<(ChainOp, Expr)>, u32),
    Print(Boxed<Expr>, u32),
    Assign(Boxed<Expr>, AssignOp, Boxed<Expr>, u32),
    /// `$a = &$b`
    AssignReference(u32, u32, u32),
    Choice(Boxed<Expr>, Items<Branch<Expr>>, u32),
    Coalesce(Boxed<Expr>, Boxed<Expr>, u32),
    Compare(Boxed<Expr>, CompareOp, Boxed<Expr>, u32),
    Unary(UnaryOp, Boxed<Expr>, u32),
    InstanceOf(Boxed<Expr>, ClassName, u32),
    InstanceOfVar(Boxed<Expr>, u32, u32),
    Step(StepOp, Boxed<Expr>, u32),
    Clone(Boxed<Expr>, u32),
    Include(IncludeKind, Boxed<Expr>, u32),
}

impl Expr {
    /// The line of its first token, from 1.
    pub fn line(&self) -> u32
        ensures { result ≡ line_of (expression_of self.now) }
    {
        match self {
            Expr::Int(_, line)
            | Expr::Text(_, line)
            | Expr::Quote(_, line)
            | Expr::Var(_, line)
            | Expr::Constant(_, line)
            | Expr::Array(_, line)
            | Expr::Paren(_, line)
            | Expr::Isset(_, line)
            | Expr::Empty(_, line)
            | Expr::Exit(line)
            | Expr::ExitWith(_, line)
            | Expr::New(_, _, line)
            | Expr::NewVar(_, _, line)
            | Expr::Call(_, _, line)
            | Expr::CallVar(_, _, line)
            | Expr::ClassConstant(_, _, line)
            | Expr::StaticCall(_, _, _, line)
            | Expr::StaticProperty(_, _, line)
            | Expr::ClassText(_, line)
            | Expr::Post(_, _, line)
            | Expr::Chain(_, _, line)
            | Expr::Print(_, line)
            | Expr::Assign(_, _, _, line)
            | Expr::AssignReference(_, _, line)
            | Expr::Choice(_, _, line)
            | Expr::Coalesce(_, _, line)
            | Expr::Compare(_, _, _, line)
            | Expr::Unary(_, _, line)
            | Expr::InstanceOf(_, _, line)
            | Expr::InstanceOfVar(_, _, line)
            | Expr::Step(_, _, line)
            | Expr::Clone(_, line)
            | Expr::Include(_, _, line) => *line,
        }
    }

    /// Whether it is a place: what can be unset, stepped or looked up by `isset`.
    #[tactic(auto, using(crate::proofs::Expressions::expressions))]
    pub fn is_place(&self) -> bool
        ensures { result ≡ is_place (expression_of self.now) }
    {
        match self {
            Expr::Post(head, accesses, _) => {
                if !is_root(head.get()) {
                    return false;
                }
                only_steps(accesses.as_slice())
            }
            _ => is_root(self),
        }
    }
}

/// Whether a place may begin with it: a variable, or a static property.
fn is_root(head: &Expr) -> bool
    ensures { result ≡ is_root (expression_of head.now) }
{
    matches!(head, Expr::Var(_, _) | Expr::StaticProperty(_, _, _))
}

/// Whether it is an index or a property.
fn is_step(access: &Access<Expr>) -> bool
    ensures { result ≡ is_step access.now }
{
    matches!(access, Access::Index(_) | Access::Property(_))
}

fn all_steps(accesses: &[Access<Expr>]) -> bool
    ensures { result ≡ list_all is_step accesses.now }
{
    accesses.iter().all(|access| is_step(access))
}

#[tactic(auto, using(crate::proofs::Places::steps))]
fn only_steps(accesses: &[Access<Expr>]) -> bool
    ensures { result ≡ only_steps (accesses_of accesses.now) }
{
    all_steps(accesses)
}
