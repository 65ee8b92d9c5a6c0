// Bytes that HTML and URLs write in another way.

ghost use Rattle.std.specs.Prelude.{◌≡◌, ◌<◌, ◌++◌, ◌∷◌, [], IfOk, OnOk, IsTrue};
ghost use Rattle.std.specs.List.{flat_map};
ghost use Rattle.php_text_calls.specs.Escapes as escapes;
ghost use Rattle.php_text_calls.specs.TextCalls as spec;

use crate::arguments::{only_text, sized_value};
use php_arguments::{CallFault, int_or, one_or_two, text_argument};
use php_values::Value;
use std::alloc::{AllocError, Global};

/// How bytes are escaped: for HTML without quotes, with double quotes, or with both kinds; or for URLs.
#[derive(Clone, Copy, Debug, PartialEq, Eq)]
pub(crate) enum Escape {
    NoQuotes,
    DoubleQuotes,
    AllQuotes,
    UrlForm,
    UrlRaw,
}

// Letters, digits, `-`, `_` and `.`.
fn stays(b: u8) -> bool
    ensures { result ≡ escapes.stays b }
{
    b.is_ascii_alphanumeric() || matches!(b, b'-' | b'_' | b'.')
}

// Whether an escape writes a byte as it is.
fn is_kept(escape: Escape, b: u8) -> bool
    ensures { IsTrue result → escapes.escaped_byte escape b ≡ b ∷ [] }
{
    match escape {
        Escape::NoQuotes => !matches!(b, b'&' | b'<' | b'>'),
        Escape::DoubleQuotes => !matches!(b, b'&' | b'<' | b'>' | b'"'),
        Escape::AllQuotes => !matches!(b, b'&' | b'<' | b'>' | b'"' | b'\''),
        Escape::UrlForm => stays(b),
        Escape::UrlRaw => stays(b),
    }
}

fn append_html(b: u8, out: &mut Vec<u8>) -> Result<(), AllocError>
    ensures { OnOk result (out.new.items ≡ out.old.items ++ escapes.html_byte b) }
{
    match b {
        b'&' => out.extend_from_slice(b"&amp;")?,
        b'<' => out.extend_from_slice(b"&lt;")?,
        b'>' => out.extend_from_slice(b"&gt;")?,
        _ => out.extend_from_slice(&[b])?,
    }
    Ok(())
}

fn append_double(b: u8, out: &mut Vec<u8>) -> Result<(), AllocError>
    ensures { OnOk result (out.new.items ≡ out.old.items ++ escapes.html_double b) }
{
    if b == b'"' {
        out.extend_from_slice(b"&quot;")?;
        return Ok(());
    }
    append_html(b, out)
}

fn append_all(b: u8, out: &mut Vec<u8>) -> Result<(), AllocError>
    ensures { OnOk result (out.new.items ≡ out.old.items ++ escapes.html_all b) }
{
    if b == b'\'' {
        out.extend_from_slice(b"&#039;")?;
        return Ok(());
    }
    append_double(b, out)
}

fn hex_digit(n: u8) -> u8
    requires { n < 16 }
    ensures { result ≡ escapes.hex_digit n }
{
    if n < 10 { 48 + n } else { 55 + n }
}

fn append_percent(b: u8, out: &mut Vec<u8>) -> Result<(), AllocError>
    ensures { OnOk result (out.new.items ≡ out.old.items ++ escapes.percent_byte b) }
{
    out.extend_from_slice(&[b'%', hex_digit(b / 16), hex_digit(b % 16)])?;
    Ok(())
}

fn append_url_form(b: u8, out: &mut Vec<u8>) -> Result<(), AllocError>
    ensures { OnOk result (out.new.items ≡ out.old.items ++ escapes.url_form_byte b) }
{
    if stays(b) {
        out.extend_from_slice(&[b])?;
        return Ok(());
    }
    if b == b' ' {
        out.extend_from_slice(b"+")?;
        return Ok(());
    }
    append_percent(b, out)
}

fn append_url_raw(b: u8, out: &mut Vec<u8>) -> Result<(), AllocError>
    ensures { OnOk result (out.new.items ≡ out.old.items ++ escapes.url_raw_byte b) }
{
    if stays(b) || b == b'~' {
        out.extend_from_slice(&[b])?;
        return Ok(());
    }
    append_percent(b, out)
}

// A byte as an escape writes it.
fn append_byte(escape: Escape, b: u8, out: &mut Vec<u8>) -> Result<(), AllocError>
    ensures { OnOk result (out.new.items ≡ out.old.items ++ escapes.escaped_byte escape b) }
{
    match escape {
        Escape::NoQuotes => append_html(b, out),
        Escape::DoubleQuotes => append_double(b, out),
        Escape::AllQuotes => append_all(b, out),
        Escape::UrlForm => append_url_form(b, out),
        Escape::UrlRaw => append_url_raw(b, out),
    }
}

// A text as an escape writes it. Bytes that stay are copied run by run.
fn written(alloc: Global, escape: Escape, text: &[u8]) -> Result<Vec<u8>, AllocError>
    ensures { IfOk result (λ v. v.items ≡ flat_map (escapes.escaped_byte escape) text.now) }
{
    let mut out = Vec::with_capacity(alloc, text.len())?;
    let mut from = 0;
    for (i, b) in text.iter().enumerate() {
        if is_kept(escape, *b) {
            continue;
        }
        out.extend_from_slice(&text[from..i])?;
        append_byte(escape, *b, &mut out)?;
        from = i + 1;
    }
    out.extend_from_slice(&text[from..])?;
    Ok(out)
}

fn escaped(alloc: Global, escape: Escape, text: &[u8]) -> Result<Value, CallFault>
    ensures { spec.GivesValue (escapes.escaped escape text.now) result }
{
    let bytes = written(alloc, escape, text)?;
    sized_value(alloc, bytes)
}

// The escape of HTML by its flag.
fn html_escape(flag: i64) -> Result<Escape, CallFault>
    ensures { spec.GivesAnswer (escapes.html_escape flag) result }
{
    if flag == 0 {
        return Ok(Escape::NoQuotes);
    }
    if flag == 2 {
        return Ok(Escape::DoubleQuotes);
    }
    if flag == 3 {
        return Ok(Escape::AllQuotes);
    }
    Err(CallFault::Mistyped)
}

pub(crate) fn htmlspecialchars(alloc: Global, args: &[Value]) -> Result<Value, CallFault>
    ensures { spec.GivesValue (spec.htmlspecialchars (spec.datas args.now)) result }
{
    let (first, second) = one_or_two(args)?;
    let text = text_argument(alloc, first)?;
    let flag = int_or(2, second)?;
    let escape = html_escape(flag)?;
    escaped(alloc, escape, text.as_slice())
}

pub(crate) fn urlencode(alloc: Global, args: &[Value]) -> Result<Value, CallFault>
    ensures { spec.GivesValue (spec.url_form (spec.datas args.now)) result }
{
    let text = only_text(alloc, args)?;
    escaped(alloc, Escape::UrlForm, text.as_slice())
}

pub(crate) fn rawurlencode(alloc: Global, args: &[Value]) -> Result<Value, CallFault>
    ensures { spec.GivesValue (spec.url_raw (spec.datas args.now)) result }
{
    let text = only_text(alloc, args)?;
    escaped(alloc, Escape::UrlRaw, text.as_slice())
}
