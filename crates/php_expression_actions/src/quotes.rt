//! Texts with interpolation.

ghost use Rattle.std.specs.Prelude.{◌≡◌, IfOk};
ghost use Rattle.std.specs.Option.{option_copied};
ghost use Rattle.php_grammar.specs.Act as spec;
ghost use Rattle.php_popped.specs.Tokens.{seen};
ghost use Rattle.php_tree.specs.ExpressionOf.{expressions_of, parts_of};

use backward_list::Backward;
use php_building::quote::filled;
use php_grammar::lexeme::Lexeme;
use php_tree::expr::{Expr, QuoteKey, QuotePart};
use php_tree::name::MemberName;
use sqlite_items::Items;
use std::alloc::{AllocError, Global};

/// The parts of a token's text, with its embedded expressions.
pub fn quote_parts(
    alloc: Global,
    token: Option<&Lexeme<'_>>,
    exprs: Backward<Expr>,
) -> Result<Items<QuotePart<Expr>>, AllocError>
    ensures { IfOk result (λ made. parts_of made ≡ spec.filled (seen (option_copied token.entry)).parts (expressions_of exprs)) }
{
    let parts = match token {
        Some(token) => copied_parts(alloc, token.parts.as_slice())?,
        None => Items::new(alloc),
    };
    filled(alloc, parts, exprs)
}

fn copied_parts(alloc: Global, parts: &[QuotePart<()>]) -> Result<Items<QuotePart<()>>, AllocError>
    ensures { IfOk result (λ made. made ≡ parts.now) }
{
    let mut made = Items::new(alloc);
    'copy: for part in parts {
        let part = copied_part(alloc, part)?;
        made.push(part)?;
    }
    Ok(made)
}

fn copied_part(alloc: Global, part: &QuotePart<()>) -> Result<QuotePart<()>, AllocError>
    ensures { IfOk result (λ made. made ≡ part.now) }
{
    match part {
        QuotePart::Bytes(bytes) => {
            let bytes = Items::from_slice(alloc, bytes.as_slice())?;
            Ok(QuotePart::Bytes(bytes))
        }
        QuotePart::Var(number) => Ok(QuotePart::Var(*number)),
        QuotePart::Index(number, key) => {
            let key = copied_key(alloc, key)?;
            Ok(QuotePart::Index(*number, key))
        }
        QuotePart::Property(number, name) => {
            let text = Items::from_slice(alloc, name.text.as_slice())?;
            Ok(QuotePart::Property(
                *number,
                MemberName {
                    text,
                    line: name.line,
                },
            ))
        }
        QuotePart::Embedded(mark) => Ok(QuotePart::Embedded(*mark)),
    }
}

fn copied_key(alloc: Global, key: &QuoteKey) -> Result<QuoteKey, AllocError>
    ensures { IfOk result (λ made. made ≡ key.now) }
{
    match key {
        QuoteKey::Int(int) => Ok(QuoteKey::Int(*int)),
        QuoteKey::Text(text) => {
            let text = Items::from_slice(alloc, text.as_slice())?;
            Ok(QuoteKey::Text(text))
        }
        QuoteKey::Var(number) => Ok(QuoteKey::Var(*number)),
    }
}
