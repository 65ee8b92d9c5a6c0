//! Statements.

ghost use Rattle.std.specs.Prelude.{◌≡◌};
ghost use Rattle.php_tree.specs.Line.{statement_line};
ghost use Rattle.php_tree.specs.StatementOf.{statement_of};

use crate::decl::{ClassDecl, FunDecl};
use crate::expr::Expr;
use crate::name::{ClassName, ConstName};
use sqlite_items::{Boxed, Items};

/// A variable of a `static` statement, by its number, and its first value.
#[derive(Drop)]
pub struct StaticVar {
    pub variable: u32,
    pub default: Option<Boxed<Expr>>,
}

/// A constant of a `const` statement.
#[derive(Drop)]
pub struct ConstDecl {
    pub name: ConstName,
    pub value: Boxed<Expr>,
}

/// The test of an `if` or `elseif`, and what it guards.
#[cycle(stmt)]
#[derive(Drop)]
pub enum IfArm {
    Arm(Boxed<Expr>, Items<Stmt>),
}

/// An arm of a `switch`.
#[cycle(stmt)]
#[derive(Drop)]
pub enum SwitchArm {
    Case(Boxed<Expr>, Items<Stmt>),
    Default(Items<Stmt>),
}

/// The classes that are caught, the variable by its number, and what is done.
#[cycle(stmt)]
#[derive(Drop)]
pub enum Catch {
    Clause(Items<ClassName>, u32, Items<Stmt>),
}

/// A statement. The last field is the line of its first token, from 1. A body that is one statement
/// is a list of one. Variables stand by their numbers in the file's list of names.
#[cycle(stmt)]
#[derive(Drop)]
pub enum Stmt {
    Inline(Items<u8>, u32),
    Echo(Items<Expr>, u32),
    Expr(Boxed<Expr>, u32),
    Empty(u32),
    Block(Items<Stmt>, u32),
    /// The arms of `if` and `elseif` in order, and what stands after `else`, empty where there is none.
    If(Items<IfArm>, Items<Stmt>, u32),
    While(Boxed<Expr>, Items<Stmt>, u32),
    Do(Items<Stmt>, Boxed<Expr>, u32),
    For(Items<Expr>, Items<Expr>, Items<Expr>, Items<Stmt>, u32),
    /// The value, the variable of the key if there is one, that of the element, and the body.
    Foreach(Boxed<Expr>, Option<u32>, u32, Items<Stmt>, u32),
    Switch(Boxed<Expr>, Items<SwitchArm>, u32),
    /// How many loops and switches it ends, 1 where no number is written.
    Break(i64, u32),
    Continue(i64, u32),
    Return(Option<Boxed<Expr>>, u32),
    Global(Items<u32>, u32),
    Static(Items<StaticVar>, u32),
    Unset(Items<Expr>, u32),
    Throw(Boxed<Expr>, u32),
    Try(Items<Stmt>, Items<Catch>, u32),
    Function(Boxed<FunDecl>, u32),
    Class(Boxed<ClassDecl>, u32),
    Const(Items<ConstDecl>, u32),
    /// The placeholder of what was removed: its kind, its path, and the function's name if it is one.
    Removed(Items<u8>, Items<u8>, Option<Items<u8>>, u32),
}

impl Stmt {
    /// The line of its first token, from 1.
    pub fn line(&self) -> u32
        ensures { result ≡ statement_line (statement_of self.now) }
    {
        match self {
            Stmt::Inline(_, line)
            | Stmt::Echo(_, line)
            | Stmt::Expr(_, line)
            | Stmt::Empty(line)
            | Stmt::Block(_, line)
            | Stmt::If(_, _, line)
            | Stmt::While(_, _, line)
            | Stmt::Do(_, _, line)
            | Stmt::For(_, _, _, _, line)
            | Stmt::Foreach(_, _, _, _, line)
            | Stmt::Switch(_, _, line)
            | Stmt::Break(_, line)
            | Stmt::Continue(_, line)
            | Stmt::Return(_, line)
            | Stmt::Global(_, line)
            | Stmt::Static(_, line)
            | Stmt::Unset(_, line)
            | Stmt::Throw(_, line)
            | Stmt::Try(_, _, line)
            | Stmt::Function(_, line)
            | Stmt::Class(_, line)
            | Stmt::Const(_, line)
            | Stmt::Removed(_, _, _, line) => *line,
        }
    }
}
