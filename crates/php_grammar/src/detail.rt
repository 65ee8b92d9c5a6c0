//! Which operator, cast or word a token is.

ghost use Rattle.std.specs.Prelude.{◌≡◌};
ghost use Rattle.php_grammar.specs.Act.{chain_of, compare_of, assign_of, unary_of, before_of, after_of, include_of, visibility_of};

use crate::token::Detail;
use php_tree::decl::Visibility;
use php_tree::expr::{AssignOp, ChainOp, CompareOp, IncludeKind, StepOp, UnaryOp};

impl Detail {
    /// The operator between the operands of a chain. `+` and `-` are such operators too.
    pub fn chain_op(self) -> ChainOp
        ensures { result ≡ chain_of self }
    {
        match self {
            Detail::Chain(op) => op,
            Detail::Plus => ChainOp::Add,
            Detail::Minus => ChainOp::Sub,
            _ => ChainOp::Join,
        }
    }

    pub fn compare_op(self) -> CompareOp
        ensures { result ≡ compare_of self }
    {
        match self {
            Detail::Compare(op) => op,
            _ => CompareOp::Equal,
        }
    }

    pub fn assign_op(self) -> AssignOp
        ensures { result ≡ assign_of self }
    {
        match self {
            Detail::Assign(op) => op,
            _ => AssignOp::Set,
        }
    }

    /// The operator before an operand. `+` and `-` are such operators too.
    pub fn unary_op(self) -> UnaryOp
        ensures { result ≡ unary_of self }
    {
        match self {
            Detail::Unary(op) => op,
            Detail::Plus => UnaryOp::Plus,
            Detail::Minus => UnaryOp::Minus,
            _ => UnaryOp::Not,
        }
    }

    /// `++` or `--` before its place.
    pub fn step_before(self) -> StepOp
        ensures { result ≡ before_of self }
    {
        match self {
            Detail::Decrement => StepOp::DecrementBefore,
            _ => StepOp::IncrementBefore,
        }
    }

    /// `++` or `--` after its place.
    pub fn step_after(self) -> StepOp
        ensures { result ≡ after_of self }
    {
        match self {
            Detail::Decrement => StepOp::DecrementAfter,
            _ => StepOp::IncrementAfter,
        }
    }

    pub fn include_kind(self) -> IncludeKind
        ensures { result ≡ include_of self }
    {
        match self {
            Detail::Include(kind) => kind,
            _ => IncludeKind::Include,
        }
    }

    pub fn visibility(self) -> Option<Visibility>
        ensures { result ≡ visibility_of self }
    {
        match self {
            Detail::Visible(visibility) => Some(visibility),
            _ => None,
        }
    }
}
