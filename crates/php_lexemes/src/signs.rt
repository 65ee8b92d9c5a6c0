//! What signs and casts are to the grammar.

ghost use Rattle.std.specs.Prelude.{◌≡◌};
ghost use Rattle.php_lexemes.specs.Signs as spec;

use php_grammar::token::{Detail, Kind};
use php_lexer::{Cast, Sign};
use php_tree::expr::{AssignOp, ChainOp, CompareOp, UnaryOp};

pub(crate) fn cast_sort(cast: Cast) -> (Kind, Detail)
    ensures { result ≡ spec.cast_sort cast }
{
    match cast {
        Cast::Int => (Kind::Prefix, Detail::Unary(UnaryOp::ToInt)),
        Cast::Text => (Kind::Prefix, Detail::Unary(UnaryOp::ToText)),
        Cast::Bool => (Kind::Prefix, Detail::Unary(UnaryOp::ToBool)),
        Cast::Array => (Kind::Prefix, Detail::Unary(UnaryOp::ToArray)),
    }
}

pub(crate) fn sign_sort(sign: Sign) -> (Kind, Detail)
    ensures { result ≡ spec.sign_sort sign }
{
    match sign {
        Sign::Identical => (Kind::Equality, Detail::Compare(CompareOp::Identical)),
        Sign::NotIdentical => (Kind::Equality, Detail::Compare(CompareOp::NotIdentical)),
        Sign::Spaceship => (Kind::Equality, Detail::Compare(CompareOp::Order)),
        Sign::Equal => (Kind::Equality, Detail::Compare(CompareOp::Equal)),
        Sign::NotEqual => (Kind::Equality, Detail::Compare(CompareOp::NotEqual)),
        Sign::LessGreater => (Kind::Equality, Detail::Compare(CompareOp::NotEqual)),
        Sign::LessEqual => (Kind::Order, Detail::Compare(CompareOp::LessEqual)),
        Sign::GreaterEqual => (Kind::Order, Detail::Compare(CompareOp::GreaterEqual)),
        Sign::AndAnd => (Kind::AndAnd, Detail::Chain(ChainOp::And)),
        Sign::OrOr => (Kind::OrOr, Detail::Chain(ChainOp::Or)),
        Sign::Coalesce => (Kind::Coalesce, Detail::Only),
        Sign::PlusPlus => (Kind::Step, Detail::Increment),
        Sign::MinusMinus => (Kind::Step, Detail::Decrement),
        Sign::PlusAssign => (Kind::AssignOp, Detail::Assign(AssignOp::Add)),
        Sign::MinusAssign => (Kind::AssignOp, Detail::Assign(AssignOp::Sub)),
        Sign::StarAssign => (Kind::AssignOp, Detail::Assign(AssignOp::Mul)),
        Sign::SlashAssign => (Kind::AssignOp, Detail::Assign(AssignOp::Div)),
        Sign::DotAssign => (Kind::AssignOp, Detail::Assign(AssignOp::Join)),
        Sign::PercentAssign => (Kind::AssignOp, Detail::Assign(AssignOp::Rem)),
        Sign::DoubleArrow => (Kind::DoubleArrow, Detail::Only),
        Sign::Arrow => (Kind::Arrow, Detail::Only),
        Sign::DoubleColon => (Kind::DoubleColon, Detail::Only),
        Sign::Assign => (Kind::Assign, Detail::Only),
        Sign::Less => (Kind::Order, Detail::Compare(CompareOp::Less)),
        Sign::Greater => (Kind::Order, Detail::Compare(CompareOp::Greater)),
        Sign::Not => (Kind::Not, Detail::Unary(UnaryOp::Not)),
        Sign::Plus => (Kind::Sign, Detail::Plus),
        Sign::Minus => (Kind::Sign, Detail::Minus),
        Sign::Star => (Kind::Product, Detail::Chain(ChainOp::Mul)),
        Sign::Slash => (Kind::Product, Detail::Chain(ChainOp::Div)),
        Sign::Percent => (Kind::Product, Detail::Chain(ChainOp::Rem)),
        Sign::Dot => (Kind::Dot, Detail::Chain(ChainOp::Join)),
        Sign::Question => (Kind::Question, Detail::Only),
        Sign::Colon => (Kind::Colon, Detail::Only),
        Sign::Semicolon => (Kind::Semi, Detail::Only),
        Sign::Comma => (Kind::Comma, Detail::Only),
        Sign::ParenOpen => (Kind::ParenOpen, Detail::Only),
        Sign::ParenClose => (Kind::ParenClose, Detail::Only),
        Sign::BracketOpen => (Kind::BracketOpen, Detail::Only),
        Sign::BracketClose => (Kind::BracketClose, Detail::Only),
        Sign::BraceOpen => (Kind::BraceOpen, Detail::Only),
        Sign::BraceClose => (Kind::BraceClose, Detail::Only),
        Sign::Ampersand => (Kind::Amp, Detail::Only),
        Sign::Pipe => (Kind::Pipe, Detail::Only),
        Sign::At => (Kind::Prefix, Detail::Unary(UnaryOp::Silence)),
    }
}
