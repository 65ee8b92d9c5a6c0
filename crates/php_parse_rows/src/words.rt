//! The words and signs of operators.

use php_tree::decl::{ClassKind, Modifiers, Visibility};
use php_tree::expr::{AssignOp, ChainOp, CompareOp, IncludeKind, UnaryOp};

pub fn chain_word(op: ChainOp) -> &'static [u8] {
    match op {
        ChainOp::LowOr => b"or",
        ChainOp::LowXor => b"xor",
        ChainOp::LowAnd => b"and",
        ChainOp::Or => b"||",
        ChainOp::And => b"&&",
        ChainOp::Add => b"+",
        ChainOp::Sub => b"-",
        ChainOp::Join => b".",
        ChainOp::Mul => b"*",
        ChainOp::Div => b"/",
        ChainOp::Rem => b"%",
    }
}

pub fn compare_word(op: CompareOp) -> &'static [u8] {
    match op {
        CompareOp::Equal => b"==",
        CompareOp::NotEqual => b"!=",
        CompareOp::Identical => b"===",
        CompareOp::NotIdentical => b"!==",
        CompareOp::Order => b"<=>",
        CompareOp::Less => b"<",
        CompareOp::LessEqual => b"<=",
        CompareOp::Greater => b">",
        CompareOp::GreaterEqual => b">=",
    }
}

pub fn assign_word(op: AssignOp) -> &'static [u8] {
    match op {
        AssignOp::Set => b"=",
        AssignOp::Add => b"+=",
        AssignOp::Sub => b"-=",
        AssignOp::Mul => b"*=",
        AssignOp::Div => b"/=",
        AssignOp::Join => b".=",
        AssignOp::Rem => b"%=",
    }
}

pub fn unary_word(op: UnaryOp) -> &'static [u8] {
    match op {
        UnaryOp::Not => b"!",
        UnaryOp::Plus => b"+",
        UnaryOp::Minus => b"-",
        UnaryOp::Silence => b"@",
        UnaryOp::ToInt => b"(int)",
        UnaryOp::ToText => b"(string)",
        UnaryOp::ToBool => b"(bool)",
        UnaryOp::ToArray => b"(array)",
    }
}

pub fn include_word(kind: IncludeKind) -> &'static [u8] {
    match kind {
        IncludeKind::Include => b"include",
        IncludeKind::IncludeOnce => b"include_once",
        IncludeKind::Require => b"require",
        IncludeKind::RequireOnce => b"require_once",
    }
}

pub fn class_word(kind: ClassKind) -> &'static [u8] {
    match kind {
        ClassKind::Plain => b"class ",
        ClassKind::Abstract => b"abstract class ",
        ClassKind::Final => b"final class ",
        ClassKind::Interface => b"interface ",
    }
}

/// A visibility with a space behind it.
pub fn visibility_word(modifiers: Modifiers) -> &'static [u8] {
    match modifiers.visibility {
        None => b"",
        Some(Visibility::Public) => b"public ",
        Some(Visibility::Protected) => b"protected ",
        Some(Visibility::Private) => b"private ",
    }
}

/// A word with a space behind it where it holds.
pub fn word_if(holds: bool, word: &'static [u8]) -> &'static [u8] {
    if holds { word } else { b"" }
}
