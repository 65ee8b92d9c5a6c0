//! What stands at the front of code, and of the text outside the code.

ghost use Rattle.std.specs.Prelude.{◌≡◌, ◌≢◌, ◌≤◌, ◌<◌, ◌+◌, length, slice_index, true};
ghost use Rattle.php_lexer.specs.Bytes as bytes;
ghost use Rattle.php_lexer.specs.Code as spec;
ghost use Rattle.php_lexer.specs.Front.{FrontFits, OuterFits};

use crate::bytes::{Class, byte, is_in, run};
use crate::fault::{FormName, LexKind};
use crate::front::{Front, Outer, Simple};
use crate::number::number;
use crate::sign::{paren, sign};
use crate::until::{Stop, is_echo, tag_len, until};

/// The greatest length of a word, in bytes.
pub const MAX_WORD: usize = 100;

/// What stands at the front outside the code.
#[tactic(auto, unfolding(crate::specs::Code::outside))]
pub fn outer_front(z: &[u8]) -> Outer
    ensures value { result ≡ spec.outside z.now }
    ensures within { OuterFits (length z.now) result }
{
    if z.is_empty() {
        return Outer::End;
    }
    let before = until(Stop::Tag, z);
    if before != 0 {
        return Outer::Inline(before);
    }
    tag(z)
}

fn tag(z: &[u8]) -> Outer
    requires some { 1 ≤ length z.now }
    requires here { spec.has_tag z.now ≡ true }
    ensures value { result ≡ spec.tag z.now }
    ensures within { OuterFits (length z.now) result }
{
    if is_echo(z) {
        Outer::Echo
    } else {
        Outer::Tag(tag_len(z))
    }
}

fn word(z: &[u8]) -> Front
    requires some { 1 ≤ length z.now }
    requires starts { bytes.is_in Class.WordStart (slice_index z.now 0) ≡ true }
    ensures value { result ≡ spec.word z.now }
    ensures within { FrontFits (length z.now) result }
{
    let len = run(Class::Word, z, 0);
    if len > MAX_WORD {
        Front::Fault(0, LexKind::Form(FormName::Name))
    } else {
        Front::Token(Simple::Word, len)
    }
}

fn variable(z: &[u8]) -> Front
    requires { 1 ≤ length z.now }
    ensures value { result ≡ spec.variable z.now }
    ensures within { FrontFits (length z.now) result }
{
    let len = run(Class::Word, z, 1);
    if !is_in(Class::WordStart, byte(z, 1)) {
        return Front::Fault(0, LexKind::Form(FormName::Dollar));
    }
    if len > MAX_WORD {
        Front::Fault(1, LexKind::Form(FormName::Name))
    } else {
        Front::Token(Simple::Var, len + 1)
    }
}

/// The longest sign at the front.
fn longest(z: &[u8]) -> Front
    requires { 1 ≤ length z.now }
    ensures value { result ≡ spec.longest z.now }
    ensures within { FrontFits (length z.now) result }
{
    sign(z[0], byte(z, 1), byte(z, 2))
}

fn line_comment(z: &[u8], from: usize) -> Front
    requires { 1 ≤ from × from ≤ length z.now }
    ensures value { result ≡ spec.line_comment z.now from }
    ensures within { FrontFits (length z.now) result }
{
    Front::Blank(from + until(Stop::Line, z.split_at(from).1))
}

#[tactic(auto, unfolding(crate::specs::Code::comment))]
fn comment(z: &[u8]) -> Front
    requires { 2 ≤ length z.now }
    ensures value { result ≡ spec.comment z.now }
    ensures within { FrontFits (length z.now) result }
{
    let end = 2 + until(Stop::Comment, z.split_at(2).1);
    if byte(z, end) == b'*' && byte(z, end + 1) == b'/' {
        Front::Blank(end + 2)
    } else {
        Front::Fault(0, LexKind::OpenComment)
    }
}

#[tactic(auto, unfolding(crate::specs::Code::slash))]
fn slash(z: &[u8]) -> Front
    requires { 1 ≤ length z.now }
    ensures value { result ≡ spec.slash z.now }
    ensures within { FrontFits (length z.now) result }
{
    match byte(z, 1) {
        b'/' => line_comment(z, 2),
        b'*' => comment(z),
        _ => longest(z),
    }
}

fn line_end(z: &[u8], at: usize) -> usize
    ensures value { result ≡ spec.line_end z.now at }
    ensures within { at ≤ length z.now → at + result ≤ length z.now }
{
    match byte(z, at) {
        b'\n' => 1,
        b'\r' if byte(z, at + 1) == b'\n' => 2,
        _ => 0,
    }
}

#[tactic(auto, unfolding(crate::specs::Code::question))]
fn question(z: &[u8]) -> Front
    requires { 1 ≤ length z.now }
    ensures value { result ≡ spec.question z.now }
    ensures within { FrontFits (length z.now) result }
{
    if byte(z, 1) == b'>' {
        Front::Close(2 + line_end(z, 2))
    } else {
        longest(z)
    }
}

#[tactic(auto, unfolding(crate::specs::Code::symbol))]
fn symbol(z: &[u8]) -> Front
    requires { 1 ≤ length z.now }
    ensures value { result ≡ spec.symbol z.now }
    ensures within { FrontFits (length z.now) result }
{
    match z[0] {
        b'$' => variable(z),
        b'"' => Front::Quote(true),
        b'\'' => Front::Quote(false),
        b'{' => Front::Open,
        b'}' => Front::Shut,
        b'#' => line_comment(z, 1),
        b'/' => slash(z),
        b'(' => paren(z),
        b'?' => question(z),
        _ => longest(z),
    }
}

/// What stands at the front of code.
#[tactic(auto, unfolding(crate::specs::Code::inside))]
pub fn code_front(z: &[u8]) -> Front
    ensures value { result ≡ spec.inside z.now }
    ensures within { FrontFits (length z.now) result }
{
    if z.is_empty() {
        return Front::End;
    }
    if is_in(Class::Space, z[0]) {
        return Front::Blank(run(Class::Space, z, 0));
    }
    if is_in(Class::WordStart, z[0]) {
        return word(z);
    }
    if z[0].is_ascii_digit() {
        return number(z);
    }
    symbol(z)
}
