//! Words: the tokens that may name a member.

ghost use Rattle.std.specs.Prelude.{◌≡◌, Some, None, if◌then◌else◌};
ghost use Rattle.php_grammar.specs.Kinds.{holds, words, code};

use crate::part::Rule;
use crate::token::Kind;

/// Whether a token of the kind is a word, which may name a member.
pub fn is_word(kind: Kind) -> bool
    ensures { result ≡ holds (code kind) words }
{
    match kind {
        Kind::Word
        | Kind::HintWord
        | Kind::Abstract
        | Kind::And
        | Kind::Array
        | Kind::As
        | Kind::Jump
        | Kind::Case
        | Kind::Catch
        | Kind::Class
        | Kind::Clone
        | Kind::Const
        | Kind::Default
        | Kind::Exit
        | Kind::Do
        | Kind::Echo
        | Kind::Else
        | Kind::ElseIf
        | Kind::Empty
        | Kind::EndFor
        | Kind::EndForeach
        | Kind::EndIf
        | Kind::EndSwitch
        | Kind::EndWhile
        | Kind::Extends
        | Kind::Final
        | Kind::For
        | Kind::Foreach
        | Kind::Function
        | Kind::Global
        | Kind::If
        | Kind::Implements
        | Kind::Include
        | Kind::InstanceOf
        | Kind::Interface
        | Kind::Isset
        | Kind::Removed
        | Kind::New
        | Kind::Or
        | Kind::Print
        | Kind::Visibility
        | Kind::Return
        | Kind::Static
        | Kind::Switch
        | Kind::Throw
        | Kind::Try
        | Kind::Unset
        | Kind::VarWord
        | Kind::While
        | Kind::Xor
        | Kind::LeftOut => true,
        Kind::Equality
        | Kind::Order
        | Kind::AndAnd
        | Kind::OrOr
        | Kind::Coalesce
        | Kind::Step
        | Kind::AssignOp
        | Kind::Assign
        | Kind::DoubleArrow
        | Kind::Arrow
        | Kind::DoubleColon
        | Kind::Not
        | Kind::Sign
        | Kind::Dot
        | Kind::Product
        | Kind::Question
        | Kind::Colon
        | Kind::Semi
        | Kind::Comma
        | Kind::ParenOpen
        | Kind::ParenClose
        | Kind::BracketOpen
        | Kind::BracketClose
        | Kind::BraceOpen
        | Kind::BraceClose
        | Kind::Amp
        | Kind::Pipe
        | Kind::Prefix
        | Kind::Inline
        | Kind::EchoTag
        | Kind::Var
        | Kind::This
        | Kind::Int
        | Kind::Text
        | Kind::Quote
        | Kind::QuoteOpen
        | Kind::QuoteNext
        | Kind::QuoteClose
        | Kind::End => false,
    }
}

/// The rule, where the token is a word.
pub(crate) fn named(kind: Kind, rule: Rule) -> Option<Rule>
    ensures { result ≡ (if holds (code kind) words then Some rule else None) }
{
    if is_word(kind) { Some(rule) } else { None }
}
