// Calls that give a part of a text, or a place in it.

ghost use Rattle.std.specs.Prelude.{◌≡◌, ◌≤◌, length, MatchOption, ◌<◌};
ghost use Rattle.memchr.specs.Find.{matches, first_of};
ghost use Rattle.php_text_calls.specs.Parts as parts;
ghost use Rattle.php_text_calls.specs.TextCalls as spec;

use crate::arguments::{count_value, only_text, text_value, truth_value};
use memchr::{memmem, memrchr};
use php_arguments::{CallFault, int_argument, int_if_given, int_or, text_argument, two_or_three};
use php_values::Value;
use std::alloc::Global;

// Where a slice of a text begins, or the greatest number where that is too far for any text.
fn slice_start(len: usize, start: i64) -> usize
    ensures { result ≡ parts.slice_start len start }
{
    if start < 0 {
        return len.saturating_sub(start.unsigned_abs() as usize);
    }
    start as usize
}

// The slice from a place of the text on.
fn slice_from(
    alloc: Global,
    text: &[u8],
    start: usize,
    count: Option<i64>,
) -> Result<Value, CallFault>
    requires { start ≤ length text.now }
    ensures { spec.GivesValue (spec.Ok (parts.slice_from text.now start count)) result }
{
    let rest = text.split_at(start).1;
    match count {
        None => text_value(alloc, rest),
        Some(count) => slice_of(alloc, rest, count),
    }
}

// So many bytes of a text, or the text without so many bytes at the end, or false where it has less.
fn slice_of(alloc: Global, rest: &[u8], count: i64) -> Result<Value, CallFault>
    ensures { spec.GivesValue (spec.Ok (parts.counted_slice rest.now count)) result }
{
    if count < 0 {
        let behind = count.unsigned_abs() as usize;
        if rest.len() < behind {
            return truth_value(false);
        }
        return text_value(alloc, rest.split_at(rest.len() - behind).0);
    }
    let count = rest.len().min(count as usize);
    text_value(alloc, rest.split_at(count).0)
}

fn slice(alloc: Global, text: &[u8], start: i64, count: Option<i64>) -> Result<Value, CallFault>
    ensures { spec.GivesValue (spec.Ok (parts.slice text.now start count)) result }
{
    let start = slice_start(text.len(), start);
    if text.len() < start {
        return truth_value(false);
    }
    slice_from(alloc, text, start, count)
}

pub(crate) fn substr(alloc: Global, args: &[Value]) -> Result<Value, CallFault>
    ensures { spec.GivesValue (spec.substr (spec.datas args.now)) result }
{
    let (first, second, third) = two_or_three(args)?;
    let text = text_argument(alloc, first)?;
    let start = int_argument(second)?;
    let count = int_if_given(third)?;
    slice(alloc, text.as_slice(), start, count)
}

// The first place of a needle.
fn first_place(text: &[u8], needle: &[u8]) -> Option<usize>
    ensures value { result ≡ first_of (matches text.now needle.now 0) }
    ensures within { MatchOption result Unit (λ k. k ≤ length text.now) }
{
    memmem::find(text, needle)
}

fn place_from(text: &[u8], needle: &[u8], start: usize) -> Result<Value, CallFault>
    requires { start ≤ length text.now }
    ensures { spec.GivesValue (spec.Ok (parts.place_from text.now needle.now start)) result }
{
    match first_place(text.split_at(start).1, needle) {
        None => truth_value(false),
        Some(place) => count_value(start + place),
    }
}

fn place_of(text: &[u8], needle: &[u8], start: i64) -> Result<Value, CallFault>
    ensures { spec.GivesValue (spec.Ok (parts.place_of text.now needle.now start)) result }
{
    if needle.is_empty() || start < 0 {
        return truth_value(false);
    }
    let start = start as usize;
    if text.len() < start {
        return truth_value(false);
    }
    place_from(text, needle, start)
}

pub(crate) fn strpos(alloc: Global, args: &[Value]) -> Result<Value, CallFault>
    ensures { spec.GivesValue (spec.strpos (spec.datas args.now)) result }
{
    let (first, second, third) = two_or_three(args)?;
    let text = text_argument(alloc, first)?;
    let needle = text_argument(alloc, second)?;
    let start = int_or(0, third)?;
    place_of(text.as_slice(), needle.as_slice(), start)
}

// The place of the last slash.
fn last_slash(text: &[u8]) -> Option<usize>
    ensures value { result ≡ parts.last_slash text.now }
    ensures within { MatchOption result Unit (λ k. k < length text.now) }
{
    memrchr(b'/', text)
}

fn before_slash(text: &[u8]) -> &[u8]
    ensures { result.now ≡ spec.dirname text.now }
{
    match last_slash(text) {
        None => b".",
        Some(0) => b"/",
        Some(place) => text.split_at(place).0,
    }
}

fn behind_slash(text: &[u8]) -> &[u8]
    ensures { result.now ≡ spec.basename text.now }
{
    match last_slash(text) {
        None => text,
        Some(place) => text.split_at(place + 1).1,
    }
}

pub(crate) fn dirname(alloc: Global, args: &[Value]) -> Result<Value, CallFault>
    ensures { spec.GivesValue (spec.changed spec.dirname (spec.datas args.now)) result }
{
    let text = only_text(alloc, args)?;
    text_value(alloc, before_slash(text.as_slice()))
}

pub(crate) fn basename(alloc: Global, args: &[Value]) -> Result<Value, CallFault>
    ensures { spec.GivesValue (spec.changed spec.basename (spec.datas args.now)) result }
{
    let text = only_text(alloc, args)?;
    text_value(alloc, behind_slash(text.as_slice()))
}
