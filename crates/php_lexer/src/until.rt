//! How far a text goes before a mark.

ghost use Rattle.std.specs.Prelude.{◌≡◌, ◌≤◌, ◌+◌, length, slice_index, drop, true, false, ◌<◌, ◌⊎◌};
ghost use Rattle.memchr.specs.Find.{IsFirstByte};
ghost use Rattle.php_lexer.specs.Until as spec;

use crate::bytes::byte;
use memchr::{memchr, memchr2};

/// A mark that ends a run of bytes.
#[derive(Clone, Copy, Debug)]
pub enum Stop {
    /// A line end or `?>`.
    Line,
    /// `*/`
    Comment,
    /// An open tag.
    Tag,
}

fn letter(b: u8, small: u8, capital: u8) -> bool
    ensures { result ≡ spec.letter b small capital }
{
    b == small || b == capital
}

/// `<?php` in any case, whatever follows.
fn is_php(z: &[u8]) -> bool
    ensures { result ≡ spec.is_php z.now }
{
    byte(z, 0) == b'<'
        && byte(z, 1) == b'?'
        && letter(byte(z, 2), b'p', b'P')
        && letter(byte(z, 3), b'h', b'H')
        && letter(byte(z, 4), b'p', b'P')
}

/// The length of the open tag at the front with its white space, or 0.
pub fn tag_len(z: &[u8]) -> usize
    ensures value { result ≡ spec.tag_len z.now }
    ensures within { result ≤ length z.now }
{
    if !is_php(z) {
        return 0;
    }
    if z.len() == 5 {
        return 5;
    }
    match byte(z, 5) {
        b' ' | b'\t' | b'\n' => 6,
        b'\r' if byte(z, 6) == b'\n' => 7,
        _ => 0,
    }
}

/// Whether `<?=` is at the front.
pub fn is_echo(z: &[u8]) -> bool
    ensures value { result ≡ spec.is_echo z.now }
    ensures within { spec.is_echo z.now ≡ true → 3 ≤ length z.now }
{
    byte(z, 0) == b'<' && byte(z, 1) == b'?' && byte(z, 2) == b'='
}

pub fn stops(stop: Stop, z: &[u8]) -> bool
    ensures { result ≡ spec.stops stop z.now }
{
    match stop {
        Stop::Line => byte(z, 0) == b'\n' || (byte(z, 0) == b'?' && byte(z, 1) == b'>'),
        Stop::Comment => byte(z, 0) == b'*' && byte(z, 1) == b'/',
        Stop::Tag => is_echo(z) || tag_len(z) != 0,
    }
}

/// The first byte that may begin a mark.
fn candidate(stop: Stop, z: &[u8]) -> Option<usize>
    ensures { IsFirstByte (spec.may_begin stop) z.now result }
{
    match stop {
        Stop::Line => memchr2(b'\n', b'?', z),
        Stop::Comment => memchr(b'*', z),
        Stop::Tag => memchr(b'<', z),
    }
}

/// How many bytes there are before the next that may begin a mark.
fn skip(stop: Stop, z: &[u8]) -> usize
    ensures value { spec.until stop z.now ≡ result + spec.until stop (drop result z.now) }
    ensures within { result ≤ length z.now }
{
    match candidate(stop, z) {
        Some(at) => at,
        None => z.len(),
    }
}

/// Whether a mark or the end is at the place.
fn is_done(stop: Stop, z: &[u8], at: usize) -> bool
    requires { at ≤ length z.now }
    ensures done { result ≡ true → (length (drop at z.now) ≡ 0) ⊎ (spec.stops stop (drop at z.now) ≡ true) }
    ensures more { result ≡ false → spec.stops stop (drop at z.now) ≡ false }
    ensures room { result ≡ false → at < length z.now }
{
    at == z.len() || stops(stop, z.split_at(at).1)
}

/// How many bytes there are before the mark, or before the end.
pub fn until(stop: Stop, z: &[u8]) -> usize
    ensures value { result ≡ spec.until stop z.now }
    ensures within { result ≤ length z.now }
{
    let mut at = skip(stop, z);
    'marks: while !is_done(stop, z, at) {
        at += 1;
        at += skip(stop, z.split_at(at).1);
    }
    at
}
