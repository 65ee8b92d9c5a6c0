//! What stands at the front of a quoted text's body.

ghost use Rattle.std.specs.Prelude.{◌≡◌, ◌≢◌, ◌≤◌, ◌<◌, ◌+◌, ◌^◌, length, slice_index, true};
ghost use Rattle.php_lexer.specs.Bytes as bytes;
ghost use Rattle.php_lexer.specs.Numbers as numbers;
ghost use Rattle.php_lexer.specs.Pieces as spec;
ghost use Rattle.php_lexer.specs.Front.{PieceFits};
ghost use Rattle.php_lexer.specs.declared.front.Piece.TheVariants.{Embedded};

use crate::bytes::{Class, byte, cut, is_in, run, run_up_to};
use crate::code::MAX_WORD;
use crate::fault::{FormName, LexKind};
use crate::front::{Piece, Raw, Shape};
use crate::number::value;

/// The greatest character.
pub const MAX_CHAR: u64 = 0x10_ffff;

fn fault(at: usize, form: FormName) -> Piece
    ensures { result ≡ spec.fault at form }
{
    Piece::Fault(at, LexKind::Form(form))
}

fn plain(len: usize) -> Piece
    ensures { result ≡ spec.plain len }
{
    Piece::Raw(Raw::Plain(len))
}

fn one(b: u8) -> Piece
    ensures { result ≡ spec.one b }
{
    Piece::Raw(Raw::Byte(b, 2))
}

/// The value of a few digits, modulo 256.
fn small_value(base: u64, digits: &[u8]) -> u8
    requires base { 1 ≤ base × base ≤ 16 }
    requires few { length digits.now ≤ 3 }
    ensures { result ≡ spec.small_value base digits.now }
{
    match value(base, digits) {
        Some(number) => (number % 256) as u8,
        None => unreachable!(),
    }
}

fn octal(z: &[u8]) -> Piece
    requires some { 2 ≤ length z.now }
    requires digit { bytes.is_in Class.Octal (slice_index z.now 1) ≡ true }
    ensures value { result ≡ spec.octal z.now }
    ensures within { PieceFits (length z.now) result }
{
    let len = run_up_to(Class::Octal, z, 1, 3);
    Piece::Raw(Raw::Byte(small_value(8, cut(z, 1, len)), len + 1))
}

fn hex(z: &[u8]) -> Piece
    requires some { 2 ≤ length z.now }
    ensures value { result ≡ spec.hex z.now }
    ensures within { PieceFits (length z.now) result }
{
    let len = run_up_to(Class::Hex, z, 2, 2);
    if len == 0 {
        return plain(1);
    }
    Piece::Raw(Raw::Byte(small_value(16, cut(z, 2, len)), len + 2))
}

fn unicode(z: &[u8]) -> Piece
    requires some { 3 ≤ length z.now }
    ensures value { result ≡ spec.unicode z.now }
    ensures within { PieceFits (length z.now) result }
{
    let len = run(Class::Hex, z, 3);
    if len == 0 || byte(z, len + 3) != b'}' {
        return fault(0, FormName::Unicode);
    }
    match value(16, cut(z, 3, len)) {
        Some(number) if number <= MAX_CHAR => Piece::Raw(Raw::Char(number as u32, len + 4)),
        _ => fault(0, FormName::Unicode),
    }
}

/// An escape, or a backslash that stays.
#[tactic(auto, unfolding(crate::specs::Pieces::escape))]
fn escape(z: &[u8]) -> Piece
    requires { 1 ≤ length z.now }
    ensures value { result ≡ spec.escape z.now }
    ensures within { PieceFits (length z.now) result }
{
    match byte(z, 1) {
        b'n' => one(b'\n'),
        b't' => one(b'\t'),
        b'r' => one(b'\r'),
        b'v' => one(11),
        b'e' => one(27),
        b'f' => one(12),
        b'\\' => one(b'\\'),
        b'$' => one(b'$'),
        b'"' => one(b'"'),
        b'0'..=b'7' => octal(z),
        b'x' => hex(z),
        b'u' if byte(z, 2) == b'{' => unicode(z),
        _ => plain(1),
    }
}

/// `$v[k]` with a word as the key, or a fault.
fn word_key(z: &[u8], name: usize) -> Piece
    requires { name + 2 ≤ length z.now }
    ensures value { result ≡ spec.word_key z.now name }
    ensures within { PieceFits (length z.now) result }
{
    let from = name + 2;
    let len = run(Class::Word, z, from);
    if byte(z, from + len) != b']' {
        return fault(from, FormName::Offset);
    }
    if len > MAX_WORD {
        return fault(from, FormName::Name);
    }
    Piece::Var(Shape::Index(name, len))
}

/// `$v[$w]`, or a fault.
#[tactic(auto, unfolding(crate::specs::Pieces::variable_key))]
fn variable_key(z: &[u8], name: usize) -> Piece
    requires { name + 3 ≤ length z.now }
    ensures value { result ≡ spec.variable_key z.now name }
    ensures within { PieceFits (length z.now) result }
{
    let from = name + 2;
    let first = byte(z, from + 1);
    if first == b'{' {
        return fault(from, FormName::Dollar);
    }
    if !is_in(Class::WordStart, first) {
        return fault(from, FormName::Offset);
    }
    let len = run(Class::Word, z, from + 1);
    if byte(z, from + 1 + len) != b']' {
        return fault(from, FormName::Offset);
    }
    if len > MAX_WORD {
        return fault(from + 1, FormName::Name);
    }
    Piece::Var(Shape::IndexVar(name, len))
}

/// `$v[k]` with digits as the key, or a fault.
#[tactic(auto, unfolding(crate::specs::Pieces::number_key))]
fn number_key(z: &[u8], name: usize) -> Piece
    requires { name + 2 ≤ length z.now }
    ensures value { result ≡ spec.number_key z.now name }
    ensures within { PieceFits (length z.now) result }
{
    let from = name + 2;
    let minus = if byte(z, from) == b'-' { 1 } else { 0 };
    let len = run(Class::Digit, z, from + minus);
    if len == 0 || byte(z, from + minus + len) != b']' {
        return fault(from, FormName::Offset);
    }
    Piece::Var(Shape::Index(name, minus + len))
}

/// What follows `$v[`.
#[tactic(auto, unfolding(crate::specs::Pieces::key))]
fn key(z: &[u8], name: usize) -> Piece
    requires { name + 3 ≤ length z.now }
    ensures value { result ≡ spec.key z.now name }
    ensures within { PieceFits (length z.now) result }
{
    let first = byte(z, name + 2);
    if is_in(Class::WordStart, first) {
        return word_key(z, name);
    }
    if first == b'$' {
        return variable_key(z, name);
    }
    number_key(z, name)
}

/// What follows `$v->`.
fn property(z: &[u8], name: usize) -> Piece
    requires { name + 3 ≤ length z.now }
    ensures value { result ≡ spec.property z.now name }
    ensures within { PieceFits (length z.now) result }
{
    let len = run(Class::Word, z, name + 3);
    if len > MAX_WORD {
        return fault(name + 3, FormName::Name);
    }
    Piece::Var(Shape::Property(name, len))
}

fn has_property(z: &[u8], at: usize) -> bool
    requires { at < 2 ^ 63 }
    ensures value { result ≡ spec.has_property z.now at }
    ensures within { spec.has_property z.now at ≡ true → at + 2 < length z.now }
{
    byte(z, at) == b'-' && byte(z, at + 1) == b'>' && is_in(Class::WordStart, byte(z, at + 2))
}

/// A variable, with what belongs to it.
#[tactic(auto, unfolding(crate::specs::Pieces::variable))]
fn variable(z: &[u8]) -> Piece
    requires { 1 ≤ length z.now }
    ensures value { result ≡ spec.variable z.now }
    ensures within { PieceFits (length z.now) result }
{
    let name = run(Class::Word, z, 1);
    if name > MAX_WORD {
        return fault(1, FormName::Name);
    }
    if byte(z, name + 1) == b'[' && name + 2 < z.len() {
        return key(z, name);
    }
    if has_property(z, name + 1) {
        return property(z, name);
    }
    Piece::Var(Shape::Var(name))
}

/// A variable, a fault, or a dollar that is itself.
#[tactic(auto, unfolding(crate::specs::Pieces::dollar))]
fn dollar(z: &[u8]) -> Piece
    requires { 1 ≤ length z.now }
    ensures value { result ≡ spec.dollar z.now }
    ensures within { PieceFits (length z.now) result }
{
    let next = byte(z, 1);
    if is_in(Class::WordStart, next) {
        return variable(z);
    }
    if next == b'{' {
        return fault(0, FormName::Dollar);
    }
    plain(1)
}

#[tactic(auto, unfolding(crate::specs::Pieces::double))]
fn double(z: &[u8]) -> Piece
    requires { 1 ≤ length z.now }
    ensures value { result ≡ spec.double z.now }
    ensures within { PieceFits (length z.now) result }
{
    match z[0] {
        b'"' => Piece::Close,
        b'\\' => escape(z),
        b'$' => dollar(z),
        b'{' if byte(z, 1) == b'$' => Piece::Embedded,
        b'{' => plain(1),
        _ => plain(run(Class::Double, z, 0)),
    }
}

#[tactic(auto, unfolding(crate::specs::Pieces::single))]
fn single(z: &[u8]) -> Piece
    requires { 1 ≤ length z.now }
    ensures value { result ≡ spec.single z.now }
    ensures within { PieceFits (length z.now) result }
    ensures bare { result ≢ Embedded }
{
    match z[0] {
        b'\'' => Piece::Close,
        b'\\' => match byte(z, 1) {
            b'\\' => one(b'\\'),
            b'\'' => one(b'\''),
            _ => plain(1),
        },
        _ => plain(run(Class::Single, z, 0)),
    }
}

/// What stands at the front of a body, of a double-quoted or a single-quoted text.
pub fn piece_front(is_double: bool, z: &[u8]) -> Piece
    ensures value { result ≡ spec.piece_at is_double z.now }
    ensures within { PieceFits (length z.now) result }
    ensures bare { result ≡ Embedded → is_double ≡ true }
{
    if z.is_empty() {
        return Piece::End;
    }
    if is_double { double(z) } else { single(z) }
}
