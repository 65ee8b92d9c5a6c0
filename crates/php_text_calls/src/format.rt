// What `sprintf` prints.

ghost use Rattle.std.specs.Prelude.{◌≡◌, ◌++◌, ◌≤◌, length, drop, IfOk};
ghost use Rattle.std.specs.List.{prefix_len};
ghost use Rattle.php_values.specs.Convert as convert;
ghost use Rattle.php_values.specs.Data.{data_of};
ghost use Rattle.php_text_calls.specs.Formats as formats;
ghost use Rattle.php_text_calls.specs.TextCalls as spec;

use crate::arguments::owned_value;
use crate::pieces::grow;
use bstr::ByteSlice;
use php_arguments::{CallFault, int_row, one_and_more, text_argument, text_row};
use php_values::{Value, normal_number};
use std::alloc::{AllocError, Global};

/// What fills a field: spaces before the text or behind it, or zeros before it.
#[derive(Clone, Copy, Debug, PartialEq, Eq)]
pub(crate) enum Fill {
    SpacesBefore,
    SpacesBehind,
    ZerosBefore,
}

/// `%s` or `%d`.
#[derive(Clone, Copy, Debug, PartialEq, Eq)]
pub(crate) enum FieldKind {
    TextField,
    NumberField,
}

fn is_digit(b: u8) -> bool
    ensures { result ≡ convert.is_digit b }
{
    48 <= b && b <= 57
}

// How many digits a text begins with.
fn digits_len(text: &[u8]) -> usize
    ensures value { result ≡ prefix_len convert.is_digit text.now }
    ensures within { result ≤ length text.now }
{
    for (i, b) in text.iter().enumerate() {
        if !is_digit(*b) {
            return i;
        }
    }
    text.len()
}

// How many bytes of a text stand before its first `%`.
fn plain_len(text: &[u8]) -> usize
    ensures value { result ≡ prefix_len formats.is_plain text.now }
    ensures within { result ≤ length text.now }
{
    for (i, b) in text.iter().enumerate() {
        if *b == b'%' {
            return i;
        }
    }
    text.len()
}

fn rest(text: &[u8]) -> &[u8]
    ensures { result.now ≡ drop 1 text.now }
{
    if text.is_empty() {
        text
    } else {
        text.split_at(1).1
    }
}

fn fill_of(text: &[u8]) -> Fill
    ensures { result ≡ formats.fill_of text.now }
{
    match text {
        [] => Fill::SpacesBefore,
        [b, ..] => {
            if *b == b'-' {
                return Fill::SpacesBehind;
            }
            if *b == b'0' {
                Fill::ZerosBefore
            } else {
                Fill::SpacesBefore
            }
        }
    }
}

fn begins_mark(text: &[u8]) -> bool
    ensures { result ≡ convert.begins formats.is_mark text.now }
{
    match text {
        [] => false,
        [b, ..] => *b == b'-' || *b == b'0',
    }
}

fn begins_percent(text: &[u8]) -> bool
    ensures { result ≡ convert.begins formats.is_percent text.now }
{
    match text {
        [] => false,
        [b, ..] => *b == b'%',
    }
}

fn begins_minus(text: &[u8]) -> bool
    ensures { result ≡ convert.begins convert.is_minus text.now }
{
    match text {
        [] => false,
        [b, ..] => *b == b'-',
    }
}

fn behind_mark(text: &[u8]) -> &[u8]
    ensures { result.now ≡ formats.behind_mark text.now }
{
    if begins_mark(text) { rest(text) } else { text }
}

fn width_within(number: Option<i64>) -> Result<usize, CallFault>
    ensures { spec.GivesAnswer (formats.width_within number) result }
{
    match number {
        None => Err(CallFault::Mistyped),
        Some(n) => {
            if 1 <= n && n <= 1000 {
                return Ok(n as usize);
            }
            Err(CallFault::Mistyped)
        }
    }
}

fn width_by(digits: &[u8]) -> Result<usize, CallFault>
    ensures { spec.GivesAnswer (formats.width_by digits.now) result }
{
    if digits.is_empty() {
        return Ok(0);
    }
    width_within(normal_number(digits))
}

fn width_of(text: &[u8]) -> Result<usize, CallFault>
    ensures { spec.GivesAnswer (formats.width_of text.now) result }
{
    let behind = behind_mark(text);
    width_by(behind.split_at(digits_len(behind)).0)
}

fn behind_width(text: &[u8]) -> &[u8]
    ensures { result.now ≡ formats.behind_width text.now }
{
    let behind = behind_mark(text);
    behind.split_at(digits_len(behind)).1
}

fn kind_by(text: &[u8]) -> Result<FieldKind, CallFault>
    ensures { spec.GivesAnswer (formats.kind_by text.now) result }
{
    match text {
        [] => Err(CallFault::Mistyped),
        [b, ..] => {
            if *b == b's' {
                return Ok(FieldKind::TextField);
            }
            if *b == b'd' {
                return Ok(FieldKind::NumberField);
            }
            Err(CallFault::Mistyped)
        }
    }
}

fn spaces(alloc: Global, count: usize) -> Result<Vec<u8>, AllocError>
    ensures { IfOk result (λ v. v.items ≡ formats.spaces count) }
{
    b" ".as_slice().repeatn(alloc, count)
}

fn zeros(alloc: Global, count: usize) -> Result<Vec<u8>, AllocError>
    ensures { IfOk result (λ v. v.items ≡ formats.zeros count) }
{
    b"0".as_slice().repeatn(alloc, count)
}

// Bytes with others behind them.
fn joined(mut front: Vec<u8>, behind: &[u8]) -> Result<Vec<u8>, AllocError>
    ensures { IfOk result (λ v. v.items ≡ front.items ++ behind.now) }
{
    front.extend_from_slice(behind)?;
    Ok(front)
}

// A text in a field.
fn text_in(alloc: Global, fill_with: Fill, width: usize, text: &[u8]) -> Result<Vec<u8>, AllocError>
    ensures { IfOk result (λ v. v.items ≡ formats.text_in fill_with width text.now) }
{
    let count = width.saturating_sub(text.len());
    match fill_with {
        Fill::SpacesBefore => joined(spaces(alloc, count)?, text),
        Fill::SpacesBehind => {
            let behind = spaces(alloc, count)?;
            joined(Vec::from_slice(alloc, text)?, behind.as_slice())
        }
        Fill::ZerosBefore => joined(zeros(alloc, count)?, text),
    }
}

// The text of a negative number in a field, with zeros behind its minus sign.
fn zeros_behind_minus(alloc: Global, width: usize, text: &[u8]) -> Result<Vec<u8>, AllocError>
    ensures { IfOk result (λ v. v.items ≡ formats.minus_first width text.now) }
{
    let digits = rest(text);
    let mut out = Vec::from_slice(alloc, b"-")?;
    let padded = text_in(alloc, Fill::ZerosBefore, width.saturating_sub(1), digits)?;
    out.extend_from_slice(padded.as_slice())?;
    Ok(out)
}

// The text of a number in a field.
fn number_in(
    alloc: Global,
    fill_with: Fill,
    width: usize,
    text: &[u8],
) -> Result<Vec<u8>, AllocError>
    ensures { IfOk result (λ v. v.items ≡ formats.number_in fill_with width text.now) }
{
    match fill_with {
        Fill::SpacesBefore => text_in(alloc, Fill::SpacesBefore, width, text),
        Fill::SpacesBehind => text_in(alloc, Fill::SpacesBehind, width, text),
        Fill::ZerosBefore => {
            if begins_minus(text) {
                return zeros_behind_minus(alloc, width, text);
            }
            text_in(alloc, Fill::ZerosBefore, width, text)
        }
    }
}

// Prints a text in a field.
fn print_text(
    alloc: Global,
    out: &mut Vec<u8>,
    fill_with: Fill,
    width: usize,
    value: &Value,
) -> Result<(), CallFault>
    ensures { formats.GivesGrown (formats.with_text out.old.items fill_with width (data_of value.now)) out.new.items result }
{
    let text = text_row(alloc, value)?;
    let piece = text_in(alloc, fill_with, width, text.as_slice())?;
    grow(out, piece.as_slice())
}

// Prints a number in a field.
fn print_number(
    alloc: Global,
    out: &mut Vec<u8>,
    fill_with: Fill,
    width: usize,
    value: &Value,
) -> Result<(), CallFault>
    ensures { formats.GivesGrown (formats.with_number out.old.items fill_with width (data_of value.now)) out.new.items result }
{
    let number = int_row(value)?;
    let digits = number.to_string(alloc)?;
    let piece = number_in(alloc, fill_with, width, digits.as_bytes())?;
    grow(out, piece.as_slice())
}

// Prints a field, whose `%` stands before the text.
fn print_field(
    alloc: Global,
    out: &mut Vec<u8>,
    text: &[u8],
    value: &Value,
) -> Result<(), CallFault>
    ensures { formats.GivesGrown (formats.with_field out.old.items text.now (data_of value.now)) out.new.items result }
{
    let width = width_of(text)?;
    let kind = kind_by(behind_width(text))?;
    match kind {
        FieldKind::TextField => print_text(alloc, out, fill_of(text), width, value),
        FieldKind::NumberField => print_number(alloc, out, fill_of(text), width, value),
    }
}

fn behind_field(text: &[u8]) -> &[u8]
    ensures { result.now ≡ formats.behind_field text.now }
{
    rest(behind_width(text))
}

// `%%`, or a field, whose `%` stands before the text.
fn form_step<'f, 'v>(
    alloc: Global,
    out: &mut Vec<u8>,
    text: &'f [u8],
    values: &'v [Value],
) -> Result<(&'f [u8], &'v [Value]), CallFault>
    ensures { formats.GivesStep (formats.form_step out.old.items text.now (spec.datas values.now)) out.new.items result }
{
    if begins_percent(text) {
        grow(out, b"%")?;
        return Ok((rest(text), values));
    }
    match values {
        [] => Err(CallFault::Mistyped),
        [value, more @ ..] => {
            print_field(alloc, out, text, value)?;
            Ok((behind_field(text), more))
        }
    }
}

// The bytes before the next `%`.
fn plain_step<'f, 'v>(
    out: &mut Vec<u8>,
    text: &'f [u8],
    values: &'v [Value],
) -> Result<(&'f [u8], &'v [Value]), CallFault>
    ensures { formats.GivesStep (formats.plain_step out.old.items text.now (spec.datas values.now)) out.new.items result }
{
    let (plain, left) = text.split_at(plain_len(text));
    grow(out, plain)?;
    Ok((left, values))
}

fn step<'f, 'v>(
    alloc: Global,
    out: &mut Vec<u8>,
    text: &'f [u8],
    values: &'v [Value],
) -> Result<(&'f [u8], &'v [Value]), CallFault>
    ensures { formats.GivesStep (formats.step_by out.old.items text.now (spec.datas values.now)) out.new.items result }
{
    match text {
        [] => Ok((text, values)),
        [b, behind @ ..] => {
            if *b == b'%' {
                return form_step(alloc, out, behind, values);
            }
            plain_step(out, text, values)
        }
    }
}

// What a format prints of some values.
fn formatted(alloc: Global, text: &[u8], values: &[Value]) -> Result<Value, CallFault>
    ensures { spec.GivesValue (formats.formatted text.now (spec.datas values.now)) result }
{
    let mut out = Vec::new(alloc);
    let mut left = text;
    let mut values = values;
    for number in 0..text.len() {
        if left.is_empty() {
            return owned_value(alloc, out);
        }
        let (behind, more) = step(alloc, &mut out, left, values)?;
        left = behind;
        values = more;
    }
    owned_value(alloc, out)
}

pub(crate) fn sprintf(alloc: Global, args: &[Value]) -> Result<Value, CallFault>
    ensures { spec.GivesValue (spec.sprintf (spec.datas args.now)) result }
{
    let (first, values) = one_and_more(args)?;
    let text = text_argument(alloc, first)?;
    formatted(alloc, text.as_slice(), values)
}
