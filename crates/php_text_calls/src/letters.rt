// Calls that take the bytes of a text one by one.

ghost use Rattle.std.specs.Prelude.{◌≡◌, reverse, map, IfOk};
ghost use Rattle.php_text_calls.specs.Letters as letters;
ghost use Rattle.php_text_calls.specs.TextCalls as spec;

use crate::arguments::{both_texts, count_value, only_text, owned_value, text_value};
use bstr::ByteSlice;
use php_arguments::{CallFault, int_argument, one};
use php_values::Value;
use std::alloc::{AllocError, Global};
use std::cmp::Ordering;

// Space, tab, LF, CR, NUL, VT.
const BLANKS: &[u8] = b" \t\n\r\0\x0b";

pub(crate) fn strlen(alloc: Global, args: &[Value]) -> Result<Value, CallFault>
    ensures { spec.GivesValue (spec.strlen (spec.datas args.now)) result }
{
    let text = only_text(alloc, args)?;
    count_value(text.len())
}

fn lower(alloc: Global, text: &[u8]) -> Result<Vec<u8>, AllocError>
    ensures { IfOk result (λ v. v.items ≡ letters.lower text.now) }
{
    text.iter().map(|b| b.to_ascii_lowercase()).collect(alloc)
}

fn upper(alloc: Global, text: &[u8]) -> Result<Vec<u8>, AllocError>
    ensures { IfOk result (λ v. v.items ≡ letters.upper text.now) }
{
    text.iter().map(|b| b.to_ascii_uppercase()).collect(alloc)
}

fn first_upper(alloc: Global, text: &[u8]) -> Result<Vec<u8>, AllocError>
    ensures { IfOk result (λ v. v.items ≡ letters.first_upper text.now) }
{
    let mut changed = Vec::from_slice(alloc, text)?;
    if let Some(first) = changed.first_mut() {
        *first = first.to_ascii_uppercase();
    }
    Ok(changed)
}

fn reversed(alloc: Global, text: &[u8]) -> Result<Vec<u8>, AllocError>
    ensures { IfOk result (λ v. v.items ≡ reverse text.now) }
{
    text.iter().rev().copied().collect(alloc)
}

pub(crate) fn strtolower(alloc: Global, args: &[Value]) -> Result<Value, CallFault>
    ensures { spec.GivesValue (spec.changed letters.lower (spec.datas args.now)) result }
{
    let text = only_text(alloc, args)?;
    let changed = lower(alloc, text.as_slice())?;
    owned_value(alloc, changed)
}

pub(crate) fn strtoupper(alloc: Global, args: &[Value]) -> Result<Value, CallFault>
    ensures { spec.GivesValue (spec.changed letters.upper (spec.datas args.now)) result }
{
    let text = only_text(alloc, args)?;
    let changed = upper(alloc, text.as_slice())?;
    owned_value(alloc, changed)
}

pub(crate) fn ucfirst(alloc: Global, args: &[Value]) -> Result<Value, CallFault>
    ensures { spec.GivesValue (spec.changed letters.first_upper (spec.datas args.now)) result }
{
    let text = only_text(alloc, args)?;
    let changed = first_upper(alloc, text.as_slice())?;
    owned_value(alloc, changed)
}

pub(crate) fn strrev(alloc: Global, args: &[Value]) -> Result<Value, CallFault>
    ensures { spec.GivesValue (spec.changed reverse (spec.datas args.now)) result }
{
    let text = only_text(alloc, args)?;
    let changed = reversed(alloc, text.as_slice())?;
    owned_value(alloc, changed)
}

fn left_trimmed(text: &[u8]) -> &[u8]
    ensures { result.now ≡ letters.left_trimmed text.now }
{
    match text.find_not_byteset(BLANKS) {
        None => b"",
        Some(place) => text.split_at(place).1,
    }
}

fn right_trimmed(text: &[u8]) -> &[u8]
    ensures { result.now ≡ letters.right_trimmed text.now }
{
    match text.rfind_not_byteset(BLANKS) {
        None => b"",
        Some(place) => text.split_at(place + 1).0,
    }
}

pub(crate) fn ltrim(alloc: Global, args: &[Value]) -> Result<Value, CallFault>
    ensures { spec.GivesValue (spec.changed letters.left_trimmed (spec.datas args.now)) result }
{
    let text = only_text(alloc, args)?;
    text_value(alloc, left_trimmed(text.as_slice()))
}

pub(crate) fn rtrim(alloc: Global, args: &[Value]) -> Result<Value, CallFault>
    ensures { spec.GivesValue (spec.changed letters.right_trimmed (spec.datas args.now)) result }
{
    let text = only_text(alloc, args)?;
    text_value(alloc, right_trimmed(text.as_slice()))
}

pub(crate) fn trim(alloc: Global, args: &[Value]) -> Result<Value, CallFault>
    ensures { spec.GivesValue (spec.changed letters.trimmed (spec.datas args.now)) result }
{
    let text = only_text(alloc, args)?;
    text_value(alloc, right_trimmed(left_trimmed(text.as_slice())))
}

fn first_byte(text: &[u8]) -> u8
    ensures { result ≡ letters.first_byte text.now }
{
    match text {
        [] => 0,
        [b, ..] => *b,
    }
}

pub(crate) fn ord(alloc: Global, args: &[Value]) -> Result<Value, CallFault>
    ensures { spec.GivesValue (spec.ord (spec.datas args.now)) result }
{
    let text = only_text(alloc, args)?;
    count_value(usize::from(first_byte(text.as_slice())))
}

// A number modulo 256.
fn byte_of(n: i64) -> u8
    ensures { result ≡ letters.byte_of n }
{
    if n < 0 {
        let below = (-(n + 1)) as u64;
        return 255 - (below % 256) as u8;
    }
    (n as u64 % 256) as u8
}

pub(crate) fn chr(alloc: Global, args: &[Value]) -> Result<Value, CallFault>
    ensures { spec.GivesValue (spec.chr (spec.datas args.now)) result }
{
    let value = one(args)?;
    let number = int_argument(value)?;
    text_value(alloc, &[byte_of(number)])
}

fn text_order(s: &[u8], t: &[u8]) -> i64
    ensures { result ≡ letters.text_order s.now t.now }
{
    match s.cmp(t) {
        Ordering::Less => -1,
        Ordering::Equal => 0,
        Ordering::Greater => 1,
    }
}

pub(crate) fn strcmp(alloc: Global, args: &[Value]) -> Result<Value, CallFault>
    ensures { spec.GivesValue (spec.strcmp (spec.datas args.now)) result }
{
    let texts = both_texts(alloc, args)?;
    Ok(Value::Int(text_order(texts.left.as_slice(), texts.right.as_slice())))
}
