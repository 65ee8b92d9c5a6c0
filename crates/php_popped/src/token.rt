//! What a token says that may be missing.

ghost use Rattle.std.specs.Prelude.{◌≡◌, IfOk};
ghost use Rattle.std.specs.Option.{option_copied};
ghost use Rattle.php_grammar.specs.Act as spec;
ghost use Rattle.php_popped.specs.Tokens.{seen};

use php_building::names;
use php_grammar::lexeme::Lexeme;
use php_grammar::token::Detail;
use php_tree::file::Span;
use php_tree::name::{ClassName, ConstName, FunName, MemberName};
use sqlite_items::Items;
use std::alloc::{AllocError, Global};

/// Its line, from 1.
pub fn line_of(token: Option<&Lexeme<'_>>) -> u32
    ensures { result ≡ (seen (option_copied token.entry)).line }
{
    match token {
        Some(token) => token.line,
        None => 0,
    }
}

/// The number of a variable.
pub fn number_of(token: Option<&Lexeme<'_>>) -> u32
    ensures { result ≡ (seen (option_copied token.entry)).number }
{
    match token {
        Some(token) => token.number,
        None => 0,
    }
}

/// The value of a whole number.
pub fn int_of(token: Option<&Lexeme<'_>>) -> i64
    ensures { result ≡ (seen (option_copied token.entry)).int }
{
    match token {
        Some(token) => token.int,
        None => 0,
    }
}

/// Which of its kind it is.
pub fn detail_of(token: Option<&Lexeme<'_>>) -> Detail
    ensures { result ≡ (seen (option_copied token.entry)).detail }
{
    match token {
        Some(token) => token.detail,
        None => Detail::Only,
    }
}

/// The place of its first byte, from 0.
fn place_of(token: Option<&Lexeme<'_>>) -> u32
    ensures { result ≡ (seen (option_copied token.entry)).at }
{
    match token {
        Some(token) => token.at,
        None => 0,
    }
}

/// From the one token to the other.
pub fn span_of(from: Option<&Lexeme<'_>>, to: Option<&Lexeme<'_>>) -> Span
    ensures { result ≡ spec.span_of (seen (option_copied from.entry)) (seen (option_copied to.entry)) }
{
    Span {
        from: place_of(from),
        to: place_of(to),
    }
}

/// Its text.
pub fn text_of(alloc: Global, token: Option<&Lexeme<'_>>) -> Result<Items<u8>, AllocError>
    ensures { IfOk result (λ text. text ≡ (seen (option_copied token.entry)).text) }
{
    match token {
        Some(token) => names::text_of(alloc, token),
        None => Ok(Items::new(alloc)),
    }
}

pub fn class_name(alloc: Global, token: Option<&Lexeme<'_>>) -> Result<ClassName, AllocError>
    ensures { IfOk result (λ name. name ≡ spec.class_name (seen (option_copied token.entry))) }
{
    let text = text_of(alloc, token)?;
    Ok(ClassName {
        text,
        line: line_of(token),
    })
}

pub fn member_name(alloc: Global, token: Option<&Lexeme<'_>>) -> Result<MemberName, AllocError>
    ensures { IfOk result (λ name. name ≡ spec.member_name (seen (option_copied token.entry))) }
{
    let text = text_of(alloc, token)?;
    Ok(MemberName {
        text,
        line: line_of(token),
    })
}

pub fn fun_name(alloc: Global, token: Option<&Lexeme<'_>>) -> Result<FunName, AllocError>
    ensures { IfOk result (λ name. name ≡ spec.fun_name (seen (option_copied token.entry))) }
{
    let text = text_of(alloc, token)?;
    Ok(FunName {
        text,
        line: line_of(token),
    })
}

pub fn const_name(alloc: Global, token: Option<&Lexeme<'_>>) -> Result<ConstName, AllocError>
    ensures { IfOk result (λ name. name ≡ spec.const_name (seen (option_copied token.entry))) }
{
    let text = text_of(alloc, token)?;
    Ok(ConstName { text })
}
