//! What is made into trees. Lists are held so that they grow at their front.

use backward_list::Backward;
use php_tree::decl::{ClassConst, Modifiers, PropertyDecl, Signature};
use php_tree::expr::{Access, AssignOp, Branch, ChainOp, CompareOp, Expr, Item, StepOp};
use php_tree::file::Span;
use php_tree::name::{ClassName, MemberName};
use php_tree::stmt::{IfArm, Stmt};
use sqlite_items::{Boxed, Items};

/// How an operand ends that began as a place.
#[derive(Drop)]
pub enum Ending {
    Nowhere,
    Sets(AssignOp, Boxed<Expr>),
    Refers(u32),
    StepsBy(StepOp),
}

/// What stands directly after the head of an operand.
#[derive(Drop)]
pub enum First {
    Nothing,
    Arguments(Backward<Expr>),
    /// What is given to `exit`.
    GivenTo(Option<Boxed<Expr>>),
    AtProperty(MemberName),
    AtClass,
    AtMember(MemberName),
    AtCall(MemberName, Backward<Expr>),
}

/// What stands after the head of an operand.
#[derive(Drop)]
pub struct Tail {
    pub first: First,
    pub accesses: Backward<Access<Expr>>,
    pub ending: Ending,
}

/// What stands after a word in a constant expression.
#[derive(Drop)]
pub enum ConstTail {
    OnlyWord,
    ClassForm,
    ClassMember(MemberName),
    ArrayOfItems(Backward<Item<Expr>>),
}

/// An operator of a level that does not go on, with what stands after it.
#[derive(Drop)]
pub enum Step {
    Coalesces(Boxed<Expr>),
    Compares(CompareOp, Boxed<Expr>),
    InstanceOf(ClassName),
    InstanceOfVar(u32),
}

/// What a level goes on with.
#[derive(Drop)]
pub enum Join {
    ByLinks(Backward<(ChainOp, Expr)>),
    ByBranches(Backward<Branch<Expr>>),
    ByStep(Step),
    ByNothing,
}

/// A body, and its places from `{` to `}`.
#[derive(Drop)]
pub struct Body {
    pub stmts: Items<Stmt>,
    pub span: Span,
}

/// A member without its modifiers.
#[derive(Drop)]
pub enum Core {
    Constants(Backward<ClassConst>),
    Properties(Backward<PropertyDecl>),
    Function(Signature, Option<Body>),
}

/// What an `if` guards, its further arms, and what stands after its `else`.
#[derive(Drop)]
pub struct IfParts {
    pub guarded: Items<Stmt>,
    pub arms: Backward<IfArm>,
    pub last: Items<Stmt>,
}

/// A member with its modifiers, and the line of its first token.
#[derive(Drop)]
pub struct Modded {
    pub line: u32,
    pub modifiers: Modifiers,
    pub core: Boxed<Core>,
}
