// What waits for arguments, a call's end or an include's.

use crate::owner::Scene;
use crate::tail::Tail;
use php_list_calls::ListCall;
use php_tables::Function;
use php_text_calls::TextCall;
use php_tree::expr::{Expr, IncludeKind};
use php_values::Value;
use php_world::Cell;
use sqlite_items::Items;

/// A call that knows the run.
#[derive(Clone, Copy, Debug, PartialEq, Eq)]
pub enum SystemCall {
    Define,
    Defined,
    FunctionExists,
    CallUserFunc,
}

/// What is called: a function of the program, or of the library.
#[derive(Clone, Copy)]
pub enum Callee<'a> {
    Program(Function<'a>),
    Text(TextCall),
    List(ListCall),
    System(SystemCall),
}

/// A value; a variable's cell, which gets another name; or a variable, by its number, that a library call may change.
#[derive(Drop)]
pub enum Argument {
    Passed(Value),
    Shares(Cell),
    Named(u32),
}

/// What is left of a call or an include.
#[derive(Drop)]
pub enum CallFrame<'a> {
    /// An argument is waited for: the arguments before it, and the expressions of those behind it.
    ArgumentOf(Callee<'a>, Items<Argument>, Tail<'a, Expr>),
    /// The path of an include is waited for.
    IncludeOf(IncludeKind),
    /// A function runs, and where its caller stands.
    Caller(Function<'a>, Scene<'a>),
    /// A file runs, and where its includer stands.
    Includer(Scene<'a>),
}
