//! Signs, by their first three bytes, and casts.

ghost use Rattle.std.specs.Prelude.{◌≡◌, ◌≢◌, ◌<◌, ◌≤◌, ◌+◌, length, slice_index};
ghost use Rattle.php_lexer.specs.Signs as spec;
ghost use Rattle.php_lexer.specs.Front.{FrontFits};

use crate::bytes::{Class, byte, cut, run, same_word};
use crate::fault::{FormName, LexKind};
use crate::front::{Front, Simple};
use crate::kinds::{Cast, Sign};

fn token(sign: Sign, len: usize) -> Front
    ensures { result ≡ spec.token sign len }
{
    Front::Token(Simple::Sign(sign), len)
}

fn left_out(form: FormName) -> Front
    ensures { result ≡ spec.left_out form }
{
    Front::Fault(0, LexKind::Form(form))
}

fn equal(c: u8, d: u8) -> Front
    ensures value { result ≡ spec.equal c d }
    ensures within { spec.IsShort c d result }
{
    match c {
        b'=' if d == b'=' => token(Sign::Identical, 3),
        b'=' => token(Sign::Equal, 2),
        b'>' => token(Sign::DoubleArrow, 2),
        _ => token(Sign::Assign, 1),
    }
}

fn not(c: u8, d: u8) -> Front
    ensures value { result ≡ spec.not c d }
    ensures within { spec.IsShort c d result }
{
    match c {
        b'=' if d == b'=' => token(Sign::NotIdentical, 3),
        b'=' => token(Sign::NotEqual, 2),
        _ => token(Sign::Not, 1),
    }
}

fn less(c: u8, d: u8) -> Front
    ensures value { result ≡ spec.less c d }
    ensures within { spec.IsShort c d result }
{
    match c {
        b'<' if d == b'<' => left_out(FormName::Heredoc),
        b'<' => left_out(FormName::Bits),
        b'=' if d == b'>' => token(Sign::Spaceship, 3),
        b'=' => token(Sign::LessEqual, 2),
        b'>' => token(Sign::LessGreater, 2),
        _ => token(Sign::Less, 1),
    }
}

fn greater(c: u8) -> Front
    ensures value { result ≡ spec.greater c }
    ensures within { spec.IsShort c 0 result }
{
    match c {
        b'>' => left_out(FormName::Bits),
        b'=' => token(Sign::GreaterEqual, 2),
        _ => token(Sign::Greater, 1),
    }
}

fn and(c: u8) -> Front
    ensures value { result ≡ spec.and c }
    ensures within { spec.IsShort c 0 result }
{
    match c {
        b'&' => token(Sign::AndAnd, 2),
        b'=' => left_out(FormName::Bits),
        _ => token(Sign::Ampersand, 1),
    }
}

fn or(c: u8) -> Front
    ensures value { result ≡ spec.or c }
    ensures within { spec.IsShort c 0 result }
{
    match c {
        b'|' => token(Sign::OrOr, 2),
        b'=' => left_out(FormName::Bits),
        _ => token(Sign::Pipe, 1),
    }
}

fn plus(c: u8) -> Front
    ensures value { result ≡ spec.plus c }
    ensures within { spec.IsShort c 0 result }
{
    match c {
        b'+' => token(Sign::PlusPlus, 2),
        b'=' => token(Sign::PlusAssign, 2),
        _ => token(Sign::Plus, 1),
    }
}

fn minus(c: u8) -> Front
    ensures value { result ≡ spec.minus c }
    ensures within { spec.IsShort c 0 result }
{
    match c {
        b'-' => token(Sign::MinusMinus, 2),
        b'=' => token(Sign::MinusAssign, 2),
        b'>' => token(Sign::Arrow, 2),
        _ => token(Sign::Minus, 1),
    }
}

fn star(c: u8) -> Front
    ensures value { result ≡ spec.star c }
    ensures within { spec.IsShort c 0 result }
{
    match c {
        b'*' => left_out(FormName::Power),
        b'=' => token(Sign::StarAssign, 2),
        _ => token(Sign::Star, 1),
    }
}

/// A sign that may have `=` behind it.
fn assigning(c: u8, sign: Sign, assign: Sign) -> Front
    ensures value { result ≡ spec.assigning c sign assign }
    ensures within { spec.IsShort c 0 result }
{
    match c {
        b'=' => token(assign, 2),
        _ => token(sign, 1),
    }
}

fn dot(c: u8, d: u8) -> Front
    ensures value { result ≡ spec.dot c d }
    ensures within { spec.IsShort c d result }
{
    match c {
        b'0'..=b'9' => left_out(FormName::Float),
        b'.' if d == b'.' => left_out(FormName::Spread),
        b'=' => token(Sign::DotAssign, 2),
        _ => token(Sign::Dot, 1),
    }
}

fn question(c: u8, d: u8) -> Front
    ensures value { result ≡ spec.question c d }
    ensures within { spec.IsShort c d result }
{
    match c {
        b'?' if d == b'=' => left_out(FormName::Coalesce),
        b'?' => token(Sign::Coalesce, 2),
        _ => token(Sign::Question, 1),
    }
}

fn colon(c: u8) -> Front
    ensures value { result ≡ spec.colon c }
    ensures within { spec.IsShort c 0 result }
{
    match c {
        b':' => token(Sign::DoubleColon, 2),
        _ => token(Sign::Colon, 1),
    }
}

/// The signs of one byte.
fn single(b: u8) -> Front
    ensures value { result ≡ spec.single b }
    ensures within { spec.IsShort 0 0 result }
{
    match b {
        b';' => token(Sign::Semicolon, 1),
        b',' => token(Sign::Comma, 1),
        b'(' => token(Sign::ParenOpen, 1),
        b')' => token(Sign::ParenClose, 1),
        b'[' => token(Sign::BracketOpen, 1),
        b']' => token(Sign::BracketClose, 1),
        b'@' => token(Sign::At, 1),
        b'^' | b'~' => left_out(FormName::Bits),
        b'`' => left_out(FormName::Backtick),
        b'\\' => left_out(FormName::Namespace),
        _ => Front::Fault(0, LexKind::BadByte),
    }
}

/// The longest sign of the three bytes.
#[tactic(auto, unfolding(crate::specs::Signs::sign))]
pub fn sign(b: u8, c: u8, d: u8) -> Front
    ensures value { result ≡ spec.sign b c d }
    ensures within { spec.IsShort c d result }
{
    match b {
        b'=' => equal(c, d),
        b'!' => not(c, d),
        b'<' => less(c, d),
        b'>' => greater(c),
        b'&' => and(c),
        b'|' => or(c),
        b'+' => plus(c),
        b'-' => minus(c),
        b'*' => star(c),
        b'/' => assigning(c, Sign::Slash, Sign::SlashAssign),
        b'%' => assigning(c, Sign::Percent, Sign::PercentAssign),
        b'.' => dot(c, d),
        b'?' => question(c, d),
        b':' => colon(c),
        _ => single(b),
    }
}

/// What a word in parentheses is.
#[derive(Clone, Copy, Debug)]
enum CastWord {
    Known(Cast),
    LeftOut,
    Other,
}

#[tactic(auto, unfolding(crate::specs::Signs::is_int_word))]
fn is_int_word(word: &[u8]) -> bool
    ensures { result ≡ spec.is_int_word word.now }
{
    same_word(word, b"int") || same_word(word, b"integer")
}

#[tactic(auto, unfolding(crate::specs::Signs::is_text_word))]
fn is_text_word(word: &[u8]) -> bool
    ensures { result ≡ spec.is_text_word word.now }
{
    same_word(word, b"string")
}

#[tactic(auto, unfolding(crate::specs::Signs::is_bool_word))]
fn is_bool_word(word: &[u8]) -> bool
    ensures { result ≡ spec.is_bool_word word.now }
{
    same_word(word, b"bool") || same_word(word, b"boolean")
}

#[tactic(auto, unfolding(crate::specs::Signs::is_array_word))]
fn is_array_word(word: &[u8]) -> bool
    ensures { result ≡ spec.is_array_word word.now }
{
    same_word(word, b"array")
}

#[tactic(auto, unfolding(crate::specs::Signs::is_left_out_cast))]
fn is_left_out_cast(word: &[u8]) -> bool
    ensures { result ≡ spec.is_left_out_cast word.now }
{
    same_word(word, b"float")
        || same_word(word, b"double")
        || same_word(word, b"real")
        || same_word(word, b"object")
        || same_word(word, b"unset")
        || same_word(word, b"binary")
}

fn cast_word(word: &[u8]) -> CastWord
    ensures { result ≡ spec.cast_word word.now }
{
    if is_int_word(word) {
        return CastWord::Known(Cast::Int);
    }
    if is_text_word(word) {
        return CastWord::Known(Cast::Text);
    }
    if is_bool_word(word) {
        return CastWord::Known(Cast::Bool);
    }
    if is_array_word(word) {
        return CastWord::Known(Cast::Array);
    }
    if is_left_out_cast(word) {
        return CastWord::LeftOut;
    }
    CastWord::Other
}

/// A cast, or the parenthesis alone.
#[tactic(auto, unfolding(crate::specs::Signs::paren))]
pub fn paren(z: &[u8]) -> Front
    requires { 1 ≤ length z.now }
    ensures value { result ≡ spec.paren z.now }
    ensures within { FrontFits (length z.now) result }
{
    let from = 1 + run(Class::Margin, z, 1);
    let len = run(Class::Letter, z, from);
    let end = from + len + run(Class::Margin, z, from + len);
    if byte(z, end) != b')' {
        return token(Sign::ParenOpen, 1);
    }
    match cast_word(cut(z, from, len)) {
        CastWord::Known(cast) => Front::Token(Simple::Cast(cast), end + 1),
        CastWord::LeftOut => left_out(FormName::Cast),
        CastWord::Other => token(Sign::ParenOpen, 1),
    }
}
