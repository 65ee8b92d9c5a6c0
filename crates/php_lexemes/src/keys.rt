//! The key of an element in a text.

ghost use Rattle.std.specs.Prelude.{◌≡◌, ◌<◌, ◌≤◌, ◌-◌, ◌^◌, negsuc, IfOk};
ghost use Rattle.php_lexemes.specs.Keys.{number_of, below_zero, from_zero, key_of};

use crate::names::Names;
use less_terms::read_decimal;
use php_lexer::IndexKey;
use php_tree::expr::QuoteKey;
use sqlite_items::Items;
use std::alloc::{AllocError, Global};

/// The number with a minus before it.
fn minus(value: u64) -> i64
    requires above { 0 < value }
    requires below { value ≤ 2 ^ 63 }
    ensures { result ≡ negsuc (value - 1) }
{
    let below = (value - 1) as i64;
    -1 - below
}

/// The number that digits are after a `-`.
fn below_zero(digits: &[u8]) -> Option<i64>
    ensures { result ≡ below_zero digits.now }
{
    let Some(value) = read_decimal(digits, 9_223_372_036_854_775_808) else {
        return None;
    };
    if value == 0 {
        return None;
    }
    Some(minus(value))
}

/// The number that digits are.
fn from_zero(digits: &[u8]) -> Option<i64>
    ensures { result ≡ from_zero digits.now }
{
    match read_decimal(digits, 9_223_372_036_854_775_807) {
        Some(value) => Some(value as i64),
        None => None,
    }
}

/// The number that a text is in decimal, without needless zeros.
#[tactic(auto, unfolding(crate::specs::Keys::number_of))]
fn number_of(text: &[u8]) -> Option<i64>
    ensures { result ≡ number_of text.now }
{
    match text {
        [] => None,
        [b'-', ..] => below_zero(text.split_at(1).1),
        _ => from_zero(text),
    }
}

/// A number where the text is one, else the text; a variable by its number.
pub(crate) fn key(alloc: Global, names: &Names<'_>, key: &IndexKey) -> Result<QuoteKey, AllocError>
    ensures { IfOk result (λ k. k ≡ key_of names.now key.now) }
{
    match key {
        IndexKey::Plain(text) => match number_of(text.as_slice()) {
            Some(number) => Ok(QuoteKey::Int(number)),
            None => {
                let text = Items::from_slice(alloc, text.as_slice())?;
                Ok(QuoteKey::Text(text))
            }
        },
        IndexKey::Var(name) => {
            let number = names.number(name.as_slice())?;
            Ok(QuoteKey::Var(number))
        }
    }
}
