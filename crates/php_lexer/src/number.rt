//! Whole numbers and the values of their digits.

ghost use Rattle.std.specs.Prelude.{◌≡◌, ◌≢◌, ◌<◌, ◌≤◌, ◌+◌, ◌*◌, ◌^◌, length, slice_index, true, false, nat_le, if◌then◌else◌, Some, None};
ghost use Rattle.std.specs.Char.{is_ascii_digit, digit_value};
ghost use Rattle.std.specs.List.{list_all};
ghost use Rattle.php_lexer.specs.Bytes as bytes;
ghost use Rattle.php_lexer.specs.Numbers as spec;
ghost use Rattle.php_lexer.specs.Front.{FrontFits};

use crate::bytes::{Class, byte, cut, is_in, run};
use crate::fault::{FormName, LexKind};
use crate::front::{Front, Simple};

/// The greatest whole number.
pub const MAX_INT: u64 = 9_223_372_036_854_775_807;

pub fn digit(b: u8) -> u64
    ensures value { result ≡ digit_value b }
    ensures small { result ≤ 36 }
{
    match b {
        b'0'..=b'9' => (b - b'0') as u64,
        b'A'..=b'Z' => (b - b'A') as u64 + 10,
        b'a'..=b'z' => (b - b'a') as u64 + 10,
        _ => 36,
    }
}

fn next_value(number: u64, base: u64, b: u8) -> Option<u64>
    ensures { result ≡ spec.within MAX_INT (number * base + digit_value b) }
{
    let scaled = number.checked_mul(base)?;
    let next = scaled.checked_add(digit(b))?;
    if next <= MAX_INT { Some(next) } else { None }
}

/// The value of the digits, where it is a whole number of the language.
pub fn value(base: u64, digits: &[u8]) -> Option<u64>
    requires { 1 ≤ base }
    ensures { result ≡ spec.within MAX_INT (spec.value base digits.now) }
{
    let mut number: u64 = 0;
    for b in digits {
        number = next_value(number, base, *b)?;
    }
    Some(number)
}

/// A number of so many bytes.
fn sized(base: u64, digits: &[u8], len: usize) -> Front
    requires { 1 ≤ base }
    ensures { result ≡ spec.sized base digits.now len }
{
    match value(base, digits) {
        Some(number) => Front::Token(Simple::Int(number as i64), len),
        None => Front::Fault(0, LexKind::Form(FormName::Float)),
    }
}

fn based(base: u64, class: Class, z: &[u8]) -> Front
    requires base { 1 ≤ base }
    requires room { 2 ≤ length z.now }
    ensures value { result ≡ spec.based base class z.now }
    ensures within { FrontFits (length z.now) result }
{
    let len = run(class, z, 2);
    if len == 0 {
        Front::Fault(0, LexKind::Form(FormName::Number))
    } else {
        sized(base, cut(z, 2, len), len + 2)
    }
}

/// Whether what stands after decimal digits makes them a fraction.
fn is_fraction(z: &[u8], at: usize) -> bool
    requires { at ≤ length z.now }
    ensures { result ≡ spec.is_fraction z.now at }
{
    let b = byte(z, at);
    if b == b'.' {
        return true;
    }
    if b != b'e' && b != b'E' {
        return false;
    }
    let next = byte(z, at + 1);
    next.is_ascii_digit() || ((next == b'+' || next == b'-') && byte(z, at + 2).is_ascii_digit())
}

fn are_octal(digits: &[u8]) -> bool
    ensures { result ≡ list_all (bytes.is_in Class.Octal) digits.now }
{
    digits.iter().all(|b| is_in(Class::Octal, *b))
}

fn decimal(z: &[u8]) -> Front
    requires { is_ascii_digit (slice_index z.now 0) ≡ true }
    ensures value { result ≡ spec.decimal z.now }
    ensures within { FrontFits (length z.now) result }
{
    let len = run(Class::Digit, z, 0);
    let digits = cut(z, 0, len);
    if is_fraction(z, len) {
        return Front::Fault(0, LexKind::Form(FormName::Float));
    }
    if len == 1 || byte(z, 0) != b'0' {
        return sized(10, digits, len);
    }
    if are_octal(digits) {
        sized(8, digits, len)
    } else {
        Front::Fault(0, LexKind::Form(FormName::Octal))
    }
}

/// The number at the front.
pub fn number(z: &[u8]) -> Front
    requires { is_ascii_digit (slice_index z.now 0) ≡ true }
    ensures value { result ≡ spec.number z.now }
    ensures within { FrontFits (length z.now) result }
{
    let x = byte(z, 1);
    if byte(z, 0) == b'0' {
        if x == b'x' || x == b'X' {
            return based(16, Class::Hex, z);
        }
        if x == b'b' || x == b'B' {
            return based(2, Class::Binary, z);
        }
    }
    decimal(z)
}
