// The numbers that texts begin with.

ghost use Rattle.std.specs.Prelude.{◌≡◌, ℕ, ◌≤◌, ◌<◌, ◌^◌, length, take, drop, codes, MatchOption};
ghost use Rattle.std.specs.Str.{bytes_eq};
ghost use Rattle.std.specs.List.{prefix_len, list_all};
ghost use Rattle.php_values.specs.Convert as spec;

fn is_white(b: u8) -> bool
    ensures { result ≡ spec.is_white b }
{
    b == b' ' || (9 <= b && b <= 13)
}

fn is_digit(b: u8) -> bool
    ensures { result ≡ spec.is_digit b }
{
    48 <= b && b <= 57
}

fn is_sign(b: u8) -> bool
    ensures { result ≡ spec.is_sign b }
{
    b == b'+' || b == b'-'
}

fn is_exponent_mark(b: u8) -> bool
    ensures { result ≡ spec.is_exponent_mark b }
{
    b == b'e' || b == b'E'
}

// How many bytes of white space a text begins with.
fn white_len(text: &[u8]) -> usize
    ensures value { result ≡ prefix_len spec.is_white text.now }
    ensures within { result ≤ length text.now }
{
    for (i, b) in text.iter().enumerate() {
        if !is_white(*b) {
            return i;
        }
    }
    text.len()
}

// How many digits a text begins with.
fn digits_len(text: &[u8]) -> usize
    ensures value { result ≡ prefix_len spec.is_digit text.now }
    ensures within { result ≤ length text.now }
{
    for (i, b) in text.iter().enumerate() {
        if !is_digit(*b) {
            return i;
        }
    }
    text.len()
}

fn after_white(text: &[u8]) -> &[u8]
    ensures { result.now ≡ spec.after_all spec.is_white text.now }
{
    text.split_at(white_len(text)).1
}

fn after_digits(text: &[u8]) -> &[u8]
    ensures { result.now ≡ spec.after_all spec.is_digit text.now }
{
    text.split_at(digits_len(text)).1
}

fn begins_digit(text: &[u8]) -> bool
    ensures { result ≡ spec.begins spec.is_digit text.now }
{
    match text {
        [] => false,
        [b, ..] => is_digit(*b),
    }
}

fn begins_point(text: &[u8]) -> bool
    ensures { result ≡ spec.begins spec.is_point text.now }
{
    match text {
        [] => false,
        [b, ..] => *b == b'.',
    }
}

fn begins_minus(text: &[u8]) -> bool
    ensures { result ≡ spec.begins spec.is_minus text.now }
{
    match text {
        [] => false,
        [b, ..] => *b == b'-',
    }
}

fn begins_sign(text: &[u8]) -> bool
    ensures { result ≡ spec.begins spec.is_sign text.now }
{
    match text {
        [] => false,
        [b, ..] => is_sign(*b),
    }
}

fn begins_mark(text: &[u8]) -> bool
    ensures { result ≡ spec.begins spec.is_exponent_mark text.now }
{
    match text {
        [] => false,
        [b, ..] => is_exponent_mark(*b),
    }
}

// What stands behind the first byte, if there is one.
fn rest(text: &[u8]) -> &[u8]
    ensures { result.now ≡ drop 1 text.now }
{
    if text.is_empty() {
        text
    } else {
        text.split_at(1).1
    }
}

fn after_sign(text: &[u8]) -> &[u8]
    ensures { result.now ≡ spec.after_one spec.is_sign text.now }
{
    if begins_sign(text) { rest(text) } else { text }
}

fn begins_number(text: &[u8]) -> bool
    ensures { result ≡ spec.begins_number text.now }
{
    if begins_digit(text) {
        return true;
    }
    begins_point(text) && begins_digit(rest(text))
}

fn begins_exponent(text: &[u8]) -> bool
    ensures { result ≡ spec.begins_exponent text.now }
{
    begins_mark(text) && begins_digit(after_sign(rest(text)))
}

fn unsigned_part(text: &[u8]) -> &[u8]
    ensures { result.now ≡ spec.unsigned_part text.now }
{
    after_sign(after_white(text))
}

fn has_float_form(text: &[u8]) -> bool
    ensures { result ≡ spec.has_float_form text.now }
{
    let behind = after_digits(text);
    if begins_point(behind) {
        return true;
    }
    begins_exponent(behind)
}

fn after_fraction(text: &[u8]) -> &[u8]
    ensures { result.now ≡ spec.after_fraction text.now }
{
    let behind = after_digits(text);
    if begins_point(behind) {
        after_digits(rest(behind))
    } else {
        behind
    }
}

fn after_number(text: &[u8]) -> &[u8]
    ensures { result.now ≡ spec.after_number text.now }
{
    let behind = after_fraction(text);
    if begins_exponent(behind) {
        after_digits(after_sign(rest(behind)))
    } else {
        behind
    }
}

/// The greatest absolute value of a number of 64 bits.
const LIMIT: u64 = 1 << 63;

// The number that digits make, where it is at most 2 to the power of 63.
fn decimal(digits: &[u8]) -> Option<u64>
    ensures { MatchOption result (2 ^ 63 < spec.digits_from 0 digits.now) (λ n. (n ≡ spec.digits_from 0 digits.now) × (n ≤ 2 ^ 63)) }
{
    let mut n: u64 = 0;
    for b in digits {
        let digit = u64::from(b.saturating_sub(48));
        if n > (LIMIT - digit) / 10 {
            return None;
        }
        n = n * 10 + digit;
    }
    Some(n)
}

// The number of digits with their sign, where it has 64 bits.
fn signed_decimal(negative: bool, digits: &[u8]) -> Option<i64>
    ensures { result ≡ spec.signed negative (spec.digits_from 0 digits.now) }
{
    let Some(n) = decimal(digits) else {
        return None;
    };
    if negative {
        if n == LIMIT {
            return Some(i64::MIN);
        }
        return Some(-(n as i64));
    }
    if n == LIMIT {
        return None;
    }
    Some(n as i64)
}

/// The number that a text begins with, behind white space.
#[derive(Clone, Copy, Debug, PartialEq, Eq)]
pub enum Number {
    Missing,
    Whole(i64),
    FloatForm,
}

fn leading_digits(text: &[u8]) -> &[u8]
    ensures { result.now ≡ spec.digits_of text.now }
{
    text.split_at(digits_len(text)).0
}

fn is_negative(text: &[u8]) -> bool
    ensures { result ≡ spec.is_negative text.now }
{
    begins_minus(after_white(text))
}

fn number_by(there: bool, form: bool, value: Option<i64>) -> Number
    ensures { result ≡ spec.number_by there form value }
{
    if !there {
        return Number::Missing;
    }
    if form {
        return Number::FloatForm;
    }
    match value {
        Some(n) => Number::Whole(n),
        None => Number::FloatForm,
    }
}

/// The leading number of a text.
pub fn leading_number(text: &[u8]) -> Number
    ensures { result ≡ spec.leading_number text.now }
{
    let unsigned = unsigned_part(text);
    let there = begins_number(unsigned);
    let form = has_float_form(unsigned);
    let digits = leading_digits(unsigned);
    let value = signed_decimal(is_negative(text), digits);
    number_by(there, form, value)
}

/// Whether the leading number of a text is the whole text.
pub fn is_numeric(text: &[u8]) -> bool
    ensures { result ≡ spec.is_numeric text.now }
{
    let unsigned = unsigned_part(text);
    begins_number(unsigned) && after_number(unsigned).is_empty()
}

/// The number of 64 bits whose decimal text this is, without a sign but `-` and without a leading zero.
pub fn normal_number(text: &[u8]) -> Option<i64>
    ensures { result ≡ spec.normal_number text.now }
{
    let zero = is_zero(text);
    let negative = begins_minus(text);
    let digits = after_minus(text);
    if zero {
        return Some(0);
    }
    normal_from(negative, digits)
}

// Whether a text is `0`.
fn is_zero(text: &[u8]) -> bool
    ensures { result ≡ bytes_eq text.now (codes "0") }
{
    text == b"0".as_slice()
}

fn after_minus(text: &[u8]) -> &[u8]
    ensures { result.now ≡ spec.after_one spec.is_minus text.now }
{
    if begins_minus(text) { rest(text) } else { text }
}

fn normal_from(negative: bool, text: &[u8]) -> Option<i64>
    ensures { result ≡ spec.normal_from negative text.now }
{
    if begins_nonzero(text) && all_digits(text) {
        signed_decimal(negative, text)
    } else {
        None
    }
}

fn begins_nonzero(text: &[u8]) -> bool
    ensures { result ≡ spec.begins spec.is_nonzero text.now }
{
    match text {
        [] => false,
        [b, ..] => 49 <= *b,
    }
}

fn all_digits(text: &[u8]) -> bool
    ensures { result ≡ list_all spec.is_digit text.now }
{
    text.iter().all(|b| is_digit(*b))
}
