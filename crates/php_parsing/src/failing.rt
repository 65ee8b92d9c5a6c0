//! What is told of the first token that is bad or too deep.

ghost use Rattle.std.specs.Prelude.{◌≡◌, IfOk, map, slice_get};
ghost use Rattle.std.specs.Str.{str_to_ascii_lowercase};
ghost use Rattle.php_lexer.specs.Marks.{mark_of};
ghost use Rattle.php_lexer.specs.declared.kinds.Kind.TheVariants.{Word};
ghost use Rattle.php_parser.specs.Verdict as spec;

use php_grammar::token::{Fault, Kind};
use php_lexemes::word_sort;
use php_lexer::Token;
use php_parser::{LeftOutName, ParseKind};
use sqlite_items::Items;
use std::alloc::{AllocError, Global};

/// The place of a token in bytes, the text's end where there is none. A text that is too long for it counts as want of memory.
pub fn place_at(text: &[u8], tokens: &[Token<'_>], place: usize) -> Result<u32, AllocError>
    ensures { IfOk result (λ at. at ≡ spec.place_of text.now (slice_get (map mark_of tokens.now) place)) }
{
    match tokens.get(place) {
        Some(token) => Ok(token.at),
        None => u32::try_from(text.len()).map_err(|_| AllocError),
    }
}

/// What is wrong at a token, or at the text's end.
pub fn kind_at(
    alloc: Global,
    tokens: &[Token<'_>],
    place: usize,
    fault: Fault,
) -> Result<ParseKind, AllocError>
    ensures { IfOk result (λ kind. kind ≡ spec.kind_of fault (slice_get (map mark_of tokens.now) place)) }
{
    if let Fault::Deep = fault {
        return Ok(ParseKind::Depth);
    }
    match tokens.get(place) {
        Some(token) => kind_of_token(alloc, token),
        None => Ok(ParseKind::Unexpected),
    }
}

fn kind_of_token(alloc: Global, token: &Token<'_>) -> Result<ParseKind, AllocError>
    ensures { IfOk result (λ kind. kind ≡ spec.kind_of_token (mark_of token.now).kind (mark_of token.now).text) }
{
    match token.kind {
        php_lexer::Kind::Word => kind_of_word(alloc, token.text),
        _ => Ok(ParseKind::Unexpected),
    }
}

fn kind_of_word(alloc: Global, word: &[u8]) -> Result<ParseKind, AllocError>
    ensures { IfOk result (λ kind. kind ≡ spec.kind_of_token Word word.now) }
{
    let (kind, _) = word_sort(word);
    match kind {
        Kind::LeftOut | Kind::HintWord => {
            let text = lower(alloc, word)?;
            Ok(ParseKind::LeftOut(LeftOutName { text }))
        }
        _ => Ok(ParseKind::Unexpected),
    }
}

fn lower(alloc: Global, word: &[u8]) -> Result<Items<u8>, AllocError>
    ensures { IfOk result (λ text. text ≡ str_to_ascii_lowercase word.now) }
{
    let mut text = Items::new(alloc);
    for byte in word {
        text.push(byte.to_ascii_lowercase())?;
    }
    Ok(text)
}
