//! Functions and classes.

use crate::expr::Expr;
use crate::file::Span;
use crate::name::{ClassName, FunName, MemberName};
use crate::stmt::Stmt;
use sqlite_items::{Boxed, Items};

/// What a parameter or a result has to be.
#[derive(Debug, Drop)]
pub struct Hint {
    /// Whether a `?` stands before it.
    pub nullable: bool,
    pub name: ClassName,
    pub line: u32,
}

#[derive(Drop)]
pub struct Param {
    pub hint: Option<Hint>,
    /// Whether a `&` stands before the variable.
    pub by_reference: bool,
    /// The variable's number in the file's list of names.
    pub variable: u32,
    pub default: Option<Boxed<Expr>>,
    /// The line of its variable, from 1.
    pub line: u32,
}

/// A function or a method with a body.
#[cycle(stmt)]
#[derive(Drop)]
pub struct FunDecl {
    pub name: FunName,
    pub params: Items<Param>,
    pub result: Option<Hint>,
    pub body: Items<Stmt>,
    pub body_span: Span,
    pub line: u32,
}

/// A method without a body.
#[derive(Drop)]
pub struct Signature {
    pub name: FunName,
    pub params: Items<Param>,
    pub result: Option<Hint>,
    pub line: u32,
}

#[derive(Clone, Copy, Debug, PartialEq, Eq)]
pub enum Visibility {
    Public,
    Protected,
    Private,
}

/// The words before a member.
#[derive(Clone, Copy, Debug, PartialEq, Eq)]
pub struct Modifiers {
    pub visibility: Option<Visibility>,
    pub is_static: bool,
    pub is_abstract: bool,
    pub is_final: bool,
    pub is_var: bool,
}

/// A property, and its first value.
#[derive(Drop)]
pub struct PropertyDecl {
    pub name: MemberName,
    pub default: Option<Boxed<Expr>>,
}

/// A constant of a class.
#[derive(Drop)]
pub struct ClassConst {
    pub name: MemberName,
    pub value: Boxed<Expr>,
}

/// A member of a class or an interface.
#[cycle(stmt)]
#[derive(Drop)]
pub enum Member {
    Constants(Items<ClassConst>, u32),
    Properties(Modifiers, Items<PropertyDecl>, u32),
    Method(Modifiers, Boxed<FunDecl>, u32),
    Bodiless(Modifiers, Boxed<Signature>, u32),
}

/// What a declaration of a class begins with.
#[derive(Clone, Copy, Debug, PartialEq, Eq)]
pub enum ClassKind {
    Plain,
    Abstract,
    Final,
    Interface,
}

#[cycle(stmt)]
#[derive(Drop)]
pub struct ClassDecl {
    pub kind: ClassKind,
    pub name: ClassName,
    /// What a class extends.
    pub parent: Option<ClassName>,
    /// What a class implements, or an interface extends.
    pub interfaces: Items<ClassName>,
    pub members: Items<Member>,
    pub line: u32,
}
