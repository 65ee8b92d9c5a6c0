//! Classes of bytes, and how far a class goes.

ghost use Rattle.std.specs.Prelude.{◌≡◌, ◌≢◌, ◌<◌, ◌≤◌, ◌+◌, length, slice_index, drop, if◌then◌else◌};
ghost use Rattle.std.specs.Str.{str_eq_ignore_ascii_case};
ghost use Rattle.php_lexer.specs.Bytes as spec;

#[derive(Clone, Copy, Debug)]
pub enum Class {
    Space,
    Margin,
    Letter,
    WordStart,
    Word,
    Digit,
    Hex,
    Octal,
    Binary,
    Single,
    Double,
}

pub fn is_in(class: Class, b: u8) -> bool
    ensures { result ≡ spec.is_in class b }
{
    match class {
        Class::Space => b == b' ' || b == b'\t' || b == b'\n' || b == b'\r',
        Class::Margin => b == b' ' || b == b'\t',
        Class::Letter => b.is_ascii_alphabetic(),
        Class::WordStart => b.is_ascii_alphabetic() || b == b'_',
        Class::Word => b.is_ascii_alphanumeric() || b == b'_',
        Class::Digit => b.is_ascii_digit(),
        Class::Hex => b.is_ascii_hexdigit(),
        Class::Octal => b'0' <= b && b <= b'7',
        Class::Binary => b == b'0' || b == b'1',
        Class::Single => !(b == b'\'' || b == b'\\'),
        Class::Double => !(b == b'"' || b == b'\\' || b == b'$' || b == b'{'),
    }
}

/// The byte at a place, or 0 past the end.
pub fn byte(z: &[u8], at: usize) -> u8
    ensures value { result ≡ slice_index z.now at }
    ensures within { result ≢ 0 → at < length z.now }
{
    if at < z.len() { z[at] } else { 0 }
}

/// How many bytes of the class stand from the place on.
pub fn run(class: Class, z: &[u8], at: usize) -> usize
    requires { at ≤ length z.now }
    ensures value { result ≡ spec.run class z.now at }
    ensures within { at + result ≤ length z.now }
{
    let mut end = at;
    while end < z.len() && is_in(class, z[end]) {
        end += 1;
    }
    end - at
}

/// The same, of at most `most` bytes.
pub fn run_up_to(class: Class, z: &[u8], at: usize, most: usize) -> usize
    requires { at ≤ length z.now }
    ensures value { result ≡ spec.run_up_to class z.now at most }
    ensures within { at + result ≤ length z.now }
    ensures capped { result ≤ most }
{
    let rest = z.split_at(at).1;
    let front = if most < rest.len() {
        rest.split_at(most).0
    } else {
        rest
    };
    run(class, front, 0)
}

pub fn same_word(a: &[u8], b: &[u8]) -> bool
    ensures { result ≡ str_eq_ignore_ascii_case a.now b.now }
{
    a.eq_ignore_ascii_case(b)
}

/// The bytes from a place on, so many.
pub fn cut(z: &[u8], at: usize, len: usize) -> &[u8]
    requires { at + len ≤ length z.now }
    ensures { result.now ≡ spec.cut z.now at len }
{
    z.split_at(at).1.split_at(len).0
}
