// Ids of sessions.

ghost use Rattle.std.specs.Prelude.{◌≡◌, ◌↔◌, ◌<◌, ◌≤◌, ◌*◌, ◌^◌, ◌++◌, false, IsTrue, IsNone, IfSome, IfOk, OnOk, length, string_bytes, Some};
ghost use Rattle.std.specs.List.{list_all};
ghost use Rattle.session_book.specs.Ids as spec;
ghost use Rattle.session_book.specs.Ids.{id_digits, IsId};
ghost use Rattle.session_book.specs.declared.id.SessionId.{SessionId};

use std::alloc::{AllocError, Global};

/// How many digits an id's text has.
const ID_DIGITS: usize = 34;

const SLOT_DIGITS: usize = 2;

const DRAW_DIGITS: usize = 32;

/// What names a session: its slot, and the number that was drawn for it.
#[derive(Clone, Copy, Debug, PartialEq, Eq)]
pub struct SessionId {
    pub slot: u8,
    pub draw: u128,
}

// A hexadecimal digit in lower case.
fn digit(n: u8) -> u8
    requires { n < 16 }
    ensures value { result ≡ spec.digit n }
    ensures ascii { result < 128 }
{
    if n < 10 { b'0' + n } else { b'a' + (n - 10) }
}

fn is_digit(byte: u8) -> bool
    ensures { result ≡ spec.is_digit byte }
{
    matches!(byte, b'0'..=b'9' | b'a'..=b'f')
}

// What a digit counts.
fn digit_value(byte: u8) -> u8
    requires { IsTrue (spec.is_digit byte) }
    ensures value { result ≡ spec.digit_value byte }
    ensures within { result < 16 }
{
    if byte <= b'9' {
        byte - b'0'
    } else {
        byte - b'a' + 10
    }
}

// Adds a number's lowest digits, the highest of them first.
fn push_digits(text: &mut String, n: u128, count: usize) -> Result<(), AllocError>
    requires { count ≤ 32 }
    ensures { OnOk result (string_bytes text.new ≡ string_bytes text.old ++ spec.digits count n) }
{
    let mut place = count;
    while place > 0 {
        place -= 1;
        let low = (n >> (4 * place)) % 16;
        let byte = digit(low as u8);
        let letter = char::from(byte);
        text.push(letter)?;
    }
    Ok(())
}

/// The text of an id: 2 digits of its slot and 32 of its draw, hexadecimal, in lower case.
pub fn id_text(alloc: Global, id: &SessionId) -> Result<String, AllocError>
    ensures { IfOk result (λ text. string_bytes text ≡ id_digits id.now) }
{
    let mut text = String::new(alloc);
    push_digits(&mut text, id.slot as u128, SLOT_DIGITS)?;
    push_digits(&mut text, id.draw, DRAW_DIGITS)?;
    Ok(text)
}

fn is_id_text(text: &[u8]) -> bool
    ensures { result ≡ spec.is_id_text text.now }
{
    text.len() == ID_DIGITS && all_digits(text)
}

fn all_digits(text: &[u8]) -> bool
    ensures { result ≡ list_all spec.is_digit text.now }
{
    text.iter().all(|&byte| is_digit(byte))
}

// The number of some digits.
fn number(text: &[u8]) -> u128
    requires digits { IsTrue (list_all spec.is_digit text.now) }
    requires room { length text.now ≤ 32 }
    ensures value { result ≡ spec.number 0 text.now }
    ensures within { result < 2 ^ (4 * length text.now) }
{
    let mut n = 0u128;
    for byte in text {
        n = n * 16 + digit_value(*byte) as u128;
    }
    n
}

/// The id whose text this is. It takes no memory.
pub fn read_id(text: &[u8]) -> Option<SessionId>
    ensures none { IsNone result ↔ (spec.is_id_text text.now ≡ false) }
    ensures back { IfSome result (λ id. id_digits id ≡ text.now) }
    ensures finds { (id : SessionId) → IsId id → id_digits id ≡ text.now → result ≡ Some id }
{
    if !is_id_text(text) {
        return None;
    }
    let (slot, draw) = text.split_at(SLOT_DIGITS);
    Some(SessionId {
        slot: number(slot) as u8,
        draw: number(draw),
    })
}
