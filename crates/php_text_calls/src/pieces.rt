// Calls that cut, join, repeat and pad texts.

ghost use Rattle.std.specs.Prelude.{◌≡◌, ◌≢◌, ◌<◌, ◌^◌, ◌++◌, length, IfOk, IfErr};
ghost use Rattle.order_map.specs.Arrays.{pairs_of};
ghost use Rattle.php_values.specs.Data.{data_pairs};
ghost use Rattle.php_arguments.specs.declared.fault.CallFault.TheVariants.{Memory};
ghost use Rattle.php_arguments.specs.Results.{sized_text, sized_list};
ghost use Rattle.php_text_calls.specs.Pieces as pieces;
ghost use Rattle.php_text_calls.specs.Sizes.{grown, GivesGrown};
ghost use Rattle.php_text_calls.specs.TextCalls as spec;

use crate::arguments::{
    MAX_TEXT_BYTES, both_texts, owned_value, sized_value, text_value, truth_value,
};
use bstr::ByteSlice;
use order_map::{ByteText, OrderMap};
use php_arguments::{
    CallFault, array_argument, int_argument, int_or, push_value, text_argument, text_or, text_row,
    three, two, two_to_four,
};
use php_values::{ArrayValue, Value};
use std::alloc::{AllocError, Global};

// Adds bytes to a text, where it does not grow too long.
pub(crate) fn grow(out: &mut Vec<u8>, more: &[u8]) -> Result<(), CallFault>
    ensures { GivesGrown (grown out.old.items more.now) out.new.items result }
{
    if out.len() > MAX_TEXT_BYTES || more.len() > MAX_TEXT_BYTES - out.len() {
        return Err(CallFault::Size);
    }
    out.extend_from_slice(more)?;
    Ok(())
}

// The pieces of a text between the places of a separator.
fn split(alloc: Global, separator: &[u8], text: &[u8]) -> Result<Value, CallFault>
    ensures { spec.GivesValue (sized_list (pieces.piece_values separator.now text.now)) result }
{
    let mut list = OrderMap::new(alloc);
    for piece in text.split_str(separator) {
        let piece = text_value(alloc, piece)?;
        push_value(&mut list, piece)?;
    }
    let array = ArrayValue::new(alloc, list)?;
    Ok(Value::List(array))
}

fn exploded(alloc: Global, separator: &[u8], text: &[u8]) -> Result<Value, CallFault>
    ensures { spec.GivesValue (pieces.exploded separator.now text.now) result }
{
    if separator.is_empty() {
        return truth_value(false);
    }
    split(alloc, separator, text)
}

pub(crate) fn explode(alloc: Global, args: &[Value]) -> Result<Value, CallFault>
    ensures { spec.GivesValue (spec.explode (spec.datas args.now)) result }
{
    let texts = both_texts(alloc, args)?;
    exploded(alloc, texts.left.as_slice(), texts.right.as_slice())
}

// The pieces of a text between the places of another, joined by a third.
fn rejoined(alloc: Global, search: &[u8], by: &[u8], text: &[u8]) -> Result<Value, CallFault>
    ensures { spec.GivesValue (sized_text (pieces.joined by.now (pieces.pieces search.now text.now))) result }
{
    let mut out = Vec::new(alloc);
    let mut glue: &[u8] = b"";
    for piece in text.split_str(search) {
        grow(&mut out, glue)?;
        grow(&mut out, piece)?;
        glue = by;
    }
    sized_value(alloc, out)
}

fn replaced(alloc: Global, search: &[u8], by: &[u8], text: ByteText) -> Result<Value, CallFault>
    ensures { spec.GivesValue (sized_text (pieces.replaced search.now by.now text)) result }
{
    if search.is_empty() {
        if text.len() > MAX_TEXT_BYTES {
            return Err(CallFault::Size);
        }
        return Ok(Value::Bytes(text));
    }
    rejoined(alloc, search, by, text.as_slice())
}

pub(crate) fn str_replace(alloc: Global, args: &[Value]) -> Result<Value, CallFault>
    ensures { spec.GivesValue (spec.str_replace (spec.datas args.now)) result }
{
    let (first, second, third) = three(args)?;
    let search = text_argument(alloc, first)?;
    let by = text_argument(alloc, second)?;
    let text = text_argument(alloc, third)?;
    replaced(alloc, search.as_slice(), by.as_slice(), text)
}

// The texts of an array's values.
fn texts_of(alloc: Global, array: &OrderMap<Value>) -> Result<Vec<ByteText>, CallFault>
    ensures ok { IfOk result (λ v. pieces.texts_of (data_pairs (pairs_of array.now)) ≡ spec.Ok v.items) }
    ensures err { IfErr result (λ f. f ≢ Memory → pieces.texts_of (data_pairs (pairs_of array.now)) ≡ spec.Err f) }
{
    let mut texts = Vec::new(alloc);
    let mut place = array.first();
    for number in 0..array.len() {
        let Some(at) = place else {
            return Ok(texts);
        };
        let (_, value) = array.pair(at);
        let text = text_row(alloc, value)?;
        texts.push(text)?;
        place = array.next_of(at);
    }
    Ok(texts)
}

fn joined(alloc: Global, glue: &[u8], texts: &[ByteText]) -> Result<Value, CallFault>
    ensures { spec.GivesValue (sized_text (pieces.joined glue.now texts.now)) result }
{
    let mut out = Vec::new(alloc);
    let mut first: &[u8] = b"";
    for text in texts {
        grow(&mut out, first)?;
        grow(&mut out, text.as_slice())?;
        first = glue;
    }
    sized_value(alloc, out)
}

pub(crate) fn implode(alloc: Global, args: &[Value]) -> Result<Value, CallFault>
    ensures { spec.GivesValue (spec.implode (spec.datas args.now)) result }
{
    let (first, second) = two(args)?;
    let glue = text_argument(alloc, first)?;
    let array = array_argument(second)?;
    let texts = texts_of(alloc, array)?;
    joined(alloc, glue.as_slice(), texts.as_slice())
}

#[tactic(auto, using(crate::proofs::Sizes::repeated_none, crate::proofs::Sizes::repeated_big, crate::proofs::Sizes::repeated_fits))]
fn repeated(alloc: Global, text: &[u8], times: usize) -> Result<Value, CallFault>
    ensures { spec.GivesValue (sized_text (pieces.repeated times text.now)) result }
{
    if text.is_empty() {
        return text_value(alloc, b"");
    }
    if text.len().saturating_mul(times) > MAX_TEXT_BYTES {
        return Err(CallFault::Size);
    }
    let bytes = text.repeatn(alloc, times)?;
    owned_value(alloc, bytes)
}

fn repetition(alloc: Global, text: &[u8], times: i64) -> Result<Value, CallFault>
    ensures { spec.GivesValue (pieces.repetition text.now times) result }
{
    if times < 0 {
        return Err(CallFault::Mistyped);
    }
    repeated(alloc, text, times as usize)
}

pub(crate) fn str_repeat(alloc: Global, args: &[Value]) -> Result<Value, CallFault>
    ensures { spec.GivesValue (spec.str_repeat (spec.datas args.now)) result }
{
    let (first, second) = two(args)?;
    let text = text_argument(alloc, first)?;
    let times = int_argument(second)?;
    repetition(alloc, text.as_slice(), times)
}

// So many bytes of a text that is repeated.
fn padding(alloc: Global, count: usize, pad: &[u8]) -> Result<Vec<u8>, AllocError>
    requires some { 0 < length pad.now }
    requires few { count < 2 ^ 63 }
    ensures { IfOk result (λ v. v.items ≡ pieces.padding count pad.now) }
{
    let mut bytes = pad.repeatn(alloc, count / pad.len() + 1)?;
    bytes.truncate(count);
    Ok(bytes)
}

// A text with so many bytes of padding at the left end.
#[tactic(auto, using(crate::proofs::Sizes::left_big, crate::proofs::Sizes::left_fits))]
fn padded_left(alloc: Global, text: &[u8], count: usize, pad: &[u8]) -> Result<Value, CallFault>
    requires { 0 < length pad.now }
    ensures { spec.GivesValue (sized_text (pieces.padding count pad.now ++ text.now)) result }
{
    if text.len().saturating_add(count) > MAX_TEXT_BYTES {
        return Err(CallFault::Size);
    }
    let mut bytes = padding(alloc, count, pad)?;
    bytes.extend_from_slice(text)?;
    owned_value(alloc, bytes)
}

// A text with so many bytes of padding at the right end.
#[tactic(auto, using(crate::proofs::Sizes::right_big, crate::proofs::Sizes::right_fits))]
fn padded_right(alloc: Global, text: &[u8], count: usize, pad: &[u8]) -> Result<Value, CallFault>
    requires { 0 < length pad.now }
    ensures { spec.GivesValue (sized_text (text.now ++ pieces.padding count pad.now)) result }
{
    if text.len().saturating_add(count) > MAX_TEXT_BYTES {
        return Err(CallFault::Size);
    }
    let behind = padding(alloc, count, pad)?;
    let mut bytes = Vec::from_slice(alloc, text)?;
    bytes.extend_from_slice(behind.as_slice())?;
    owned_value(alloc, bytes)
}

fn at_least_zero(n: i64) -> usize
    ensures { result ≡ pieces.at_least_zero n }
{
    if n < 0 { 0 } else { n as usize }
}

fn padded(alloc: Global, text: &[u8], len: i64, pad: &[u8], side: i64) -> Result<Value, CallFault>
    ensures { spec.GivesValue (pieces.padded text.now len pad.now side) result }
{
    if pad.is_empty() {
        return Err(CallFault::Mistyped);
    }
    let count = at_least_zero(len).saturating_sub(text.len());
    if side == 0 {
        return padded_left(alloc, text, count, pad);
    }
    if side == 1 {
        return padded_right(alloc, text, count, pad);
    }
    Err(CallFault::Mistyped)
}

pub(crate) fn str_pad(alloc: Global, args: &[Value]) -> Result<Value, CallFault>
    ensures { spec.GivesValue (spec.str_pad (spec.datas args.now)) result }
{
    let (first, second, third, fourth) = two_to_four(args)?;
    let text = text_argument(alloc, first)?;
    let len = int_argument(second)?;
    let pad = text_or(alloc, b" ", third)?;
    let side = int_or(1, fourth)?;
    padded(alloc, text.as_slice(), len, pad.as_slice(), side)
}
