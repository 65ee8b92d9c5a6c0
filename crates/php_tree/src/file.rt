//! A whole file.

ghost use Rattle.std.specs.Prelude.{◌≡◌, slice_get};
ghost use Rattle.std.specs.Option.{option_copied};

use crate::name::VarName;
use crate::stmt::Stmt;
use sqlite_items::{Items, at};

/// Two places of a text, both included.
#[derive(Clone, Copy, Debug, PartialEq, Eq)]
pub struct Span {
    pub from: u32,
    pub to: u32,
}

/// A function or method with a body: its place among them, its name, and its body from `{` to `}`.
#[derive(Debug, Drop)]
pub struct FunSpan {
    /// From 1, in text order.
    pub ordinal: u32,
    /// In lower case, `class::method` for a method.
    pub name: Items<u8>,
    pub span: Span,
}

/// A file, its functions with a body in text order, and the names of its variables, each once.
#[derive(Drop)]
pub struct FileTree {
    pub stmts: Items<Stmt>,
    pub functions: Items<FunSpan>,
    pub variables: Items<VarName>,
}

impl FileTree {
    /// The name of a variable, by its number.
    pub fn variable(&self, number: u32) -> Option<&VarName>
        ensures { option_copied result ≡ slice_get self.now.variables number }
    {
        at(self.variables.as_slice(), number as usize)
    }
}
