//! Names and texts out of tokens.

ghost use Rattle.std.specs.Prelude.{◌≡◌, IfOk};
ghost use Rattle.php_grammar.specs.Act as spec;

use php_grammar::lexeme::Lexeme;
use php_tree::decl::Modifiers;
use php_tree::name::{ClassName, ConstName, FunName, MemberName};
use sqlite_items::Items;
use std::alloc::{AllocError, Global};

/// The text of a token.
pub fn text_of(alloc: Global, token: &Lexeme<'_>) -> Result<Items<u8>, AllocError>
    ensures { IfOk result (λ text. text ≡ token.now.text) }
{
    let text = Items::from_slice(alloc, token.text.as_slice())?;
    Ok(text)
}

pub fn class_name(alloc: Global, token: &Lexeme<'_>) -> Result<ClassName, AllocError>
    ensures { IfOk result (λ name. name ≡ spec.class_name token.now) }
{
    let text = text_of(alloc, token)?;
    Ok(ClassName {
        text,
        line: token.line,
    })
}

pub fn member_name(alloc: Global, token: &Lexeme<'_>) -> Result<MemberName, AllocError>
    ensures { IfOk result (λ name. name ≡ spec.member_name token.now) }
{
    let text = text_of(alloc, token)?;
    Ok(MemberName {
        text,
        line: token.line,
    })
}

pub fn const_name(alloc: Global, token: &Lexeme<'_>) -> Result<ConstName, AllocError>
    ensures { IfOk result (λ name. name ≡ spec.const_name token.now) }
{
    let text = text_of(alloc, token)?;
    Ok(ConstName { text })
}

pub fn fun_name(alloc: Global, token: &Lexeme<'_>) -> Result<FunName, AllocError>
    ensures { IfOk result (λ name. name ≡ spec.fun_name token.now) }
{
    let text = text_of(alloc, token)?;
    Ok(FunName {
        text,
        line: token.line,
    })
}

/// No word before a member.
pub fn no_modifiers() -> Modifiers
    ensures { result ≡ spec.no_modifiers }
{
    Modifiers {
        visibility: None,
        is_static: false,
        is_abstract: false,
        is_final: false,
        is_var: false,
    }
}
