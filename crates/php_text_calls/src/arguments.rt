// Arguments that many calls take, and values that many calls give.

ghost use Rattle.std.specs.Prelude.{◌≡◌, [], pos, length};
ghost use Rattle.php_values.specs.Data.{int, bytes, truth};
ghost use Rattle.php_arguments.specs.Results.{sized_text};
ghost use Rattle.php_text_calls.specs.TextCalls as spec;

use order_map::ByteText;
use php_arguments::{CallFault, one, text_argument, two};
use php_values::Value;
use std::alloc::Global;

/// The greatest length of a text, in bytes.
pub(crate) const MAX_TEXT_BYTES: usize = 1 << 20;

/// The texts of two arguments.
#[derive(Drop)]
pub(crate) struct Texts {
    pub(crate) left: ByteText,
    pub(crate) right: ByteText,
}

// The text of the only argument.
pub(crate) fn only_text(alloc: Global, args: &[Value]) -> Result<ByteText, CallFault>
    ensures { spec.GivesAnswer (spec.only_text (spec.datas args.now)) result }
{
    let value = one(args)?;
    text_argument(alloc, value)
}

// The texts of both arguments.
pub(crate) fn both_texts(alloc: Global, args: &[Value]) -> Result<Texts, CallFault>
    ensures { spec.GivesTexts (spec.both_texts (spec.datas args.now)) result }
{
    let (first, second) = two(args)?;
    let left = text_argument(alloc, first)?;
    let right = text_argument(alloc, second)?;
    Ok(Texts { left, right })
}

// A count as a value. One that is no number of 64 bits does not fit into memory either.
pub(crate) fn count_value(count: usize) -> Result<Value, CallFault>
    ensures { spec.GivesValue (spec.Ok (int (pos count))) result }
{
    match i64::try_from(count) {
        Ok(n) => Ok(Value::Int(n)),
        Err(_) => Err(CallFault::Memory),
    }
}

pub(crate) fn text_value(alloc: Global, text: &[u8]) -> Result<Value, CallFault>
    ensures { spec.GivesValue (spec.Ok (bytes text.now)) result }
{
    let text = ByteText::from_slice(alloc, text)?;
    Ok(Value::Bytes(text))
}

pub(crate) fn owned_value(alloc: Global, text: Vec<u8>) -> Result<Value, CallFault>
    ensures { spec.GivesValue (spec.Ok (bytes text.items)) result }
{
    let text = ByteText::from_vec(alloc, text)?;
    Ok(Value::Bytes(text))
}

pub(crate) fn truth_value(b: bool) -> Result<Value, CallFault>
    ensures { spec.GivesValue (spec.Ok (truth b)) result }
{
    Ok(Value::Bool(b))
}

// A text as a value, where it is not too long.
pub(crate) fn sized_value(alloc: Global, text: Vec<u8>) -> Result<Value, CallFault>
    ensures { spec.GivesValue (sized_text text.items) result }
{
    if text.len() > MAX_TEXT_BYTES {
        return Err(CallFault::Size);
    }
    owned_value(alloc, text)
}
