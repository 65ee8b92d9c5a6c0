// Decimal numbers without sign and leading zero.
ghost use Rattle.std.specs.Prelude.{◌≡◌, ℕ, ◌+◌, ◌*◌, ◌^◌, ◌<◌, ◌≤◌, List, Some, SomeIff};
ghost use Rattle.std.specs.Fmt.{decimal};
ghost use Rattle.less_terms.specs.Decimals.{is_decimal, decimal_value};
ghost use Rattle.std.specs.List.{list_all};
ghost use Rattle.less_terms.specs.Decimals.{is_digit as digit};

fn are_digits(text: &[u8]) -> bool
    ensures { result ≡ list_all digit text.now }
{
    text.iter().all(|byte| byte.is_ascii_digit())
}

fn is_decimal_text(text: &[u8]) -> bool
    ensures { result ≡ is_decimal text.now }
{
    match text {
        [] => false,
        [b'0'] => true,
        [b'0', ..] => false,
        _ => are_digits(text),
    }
}

// The number that one more digit makes of what was read, where it is below 2^64.
fn push_digit(value: u64, digit: u64) -> Option<u64>
    ensures { SomeIff result (value * 10 + digit < 2 ^ 64) (value * 10 + digit) }
{
    match value.checked_mul(10) {
        Some(tens) => tens.checked_add(digit),
        None => None,
    }
}

/// The number that a text names, or `None` where it is no decimal number of at most `most`.
#[tactic(auto, using(crate::proofs::Digits::read_more, crate::proofs::Digits::passes))]
pub fn read_decimal(text: &[u8], most: u64) -> Option<u64>
    ensures { result ≡ decimal_value most text.now }
{
    if !is_decimal_text(text) {
        return None;
    }
    let mut value: u64 = 0;
    for &byte in text {
        let digit = (byte - b'0') as u64;
        let Some(next) = push_digit(value, digit) else {
            return None;
        };
        value = next;
    }
    if value <= most { Some(value) } else { None }
}

/// What a number is written as is read as the number, and nothing else is.
#[tactic(auto, using(crate::proofs::Written::read_written, crate::proofs::Written::written_read))]
pub fn written_numbers()
    ensures written { (most n : ℕ) → n < 2 ^ 64 → n ≤ most → decimal_value most (decimal n) ≡ Some n }
    ensures only { (most n : ℕ) (text : List ℕ) → most < 2 ^ 64 → decimal_value most text ≡ Some n → text ≡ decimal n }
{}
