//! The arguments of a load, and its calls.

use crate::plan::Plan;
use order_map::{ByteText, OrderMap};
use php_arguments::{CallFault, push_value};
use php_text_calls::{TextCall, text_call};
use php_values::{ArrayValue, Value};
use std::alloc::Global;

/// A piece of a text: 99 letters, and one byte that calls look for.
const PIECE_BYTES: u32 = 100;

fn text(alloc: Global, bytes: &[u8]) -> Result<Value, CallFault> {
    Ok(Value::Bytes(ByteText::from_slice(alloc, bytes)?))
}

// A text of pieces that end in a byte.
fn pieces(alloc: Global, bytes: u32, end: &[u8]) -> Result<Value, CallFault> {
    let mut all = Vec::new(alloc);
    for _ in 0..bytes / PIECE_BYTES {
        for _ in 0..PIECE_BYTES - 1 {
            all.push(b'a')?;
        }
        all.extend_from_slice(end)?;
    }
    Ok(Value::Bytes(ByteText::from_vec(alloc, all)?))
}

// A text of one byte, over and over.
fn run_of(alloc: Global, bytes: u32, byte: u8) -> Result<Value, CallFault> {
    let mut all = Vec::new(alloc);
    for _ in 0..bytes {
        all.push(byte)?;
    }
    Ok(Value::Bytes(ByteText::from_vec(alloc, all)?))
}

// An array of pieces.
fn array(alloc: Global, bytes: u32) -> Result<Value, CallFault> {
    let mut map = OrderMap::new(alloc);
    for _ in 0..bytes / PIECE_BYTES {
        push_value(&mut map, run_of(alloc, PIECE_BYTES - 1, b'a')?)?;
    }
    Ok(Value::List(ArrayValue::new(alloc, map)?))
}

fn whole(alloc: Global, first: Value) -> Result<Vec<Value>, CallFault> {
    let mut args = Vec::new(alloc);
    args.push(first)?;
    Ok(args)
}

fn pair(alloc: Global, first: Value, second: Value) -> Result<Vec<Value>, CallFault> {
    let mut args = whole(alloc, first)?;
    args.push(second)?;
    Ok(args)
}

// What a call is given.
fn arguments(alloc: Global, plan: &Plan) -> Result<Vec<Value>, CallFault> {
    let bytes = plan.bytes;
    match plan.call {
        TextCall::StrReplace => {
            let mut args = pair(alloc, text(alloc, b",")?, text(alloc, b";;")?)?;
            args.push(pieces(alloc, bytes, b",")?)?;
            Ok(args)
        }
        TextCall::Explode => pair(alloc, text(alloc, b",")?, pieces(alloc, bytes, b",")?),
        TextCall::Implode => pair(alloc, text(alloc, b",")?, array(alloc, bytes)?),
        TextCall::Join => pair(alloc, text(alloc, b",")?, array(alloc, bytes)?),
        TextCall::Htmlspecialchars => whole(alloc, pieces(alloc, bytes, b"<")?),
        TextCall::Sprintf => whole(alloc, pieces(alloc, bytes, b"%%")?),
        TextCall::StrRepeat => {
            let piece = pieces(alloc, PIECE_BYTES, b",")?;
            pair(alloc, piece, Value::Int(i64::from(bytes / PIECE_BYTES)))
        }
        TextCall::StrPad => pair(alloc, text(alloc, b"a")?, Value::Int(i64::from(bytes))),
        TextCall::Strpos => pair(alloc, pieces(alloc, bytes, b",")?, text(alloc, b",b")?),
        TextCall::Strcmp => pair(
            alloc,
            pieces(alloc, bytes, b",")?,
            pieces(alloc, bytes, b",")?,
        ),
        TextCall::Substr => pair(alloc, pieces(alloc, bytes, b",")?, Value::Int(1)),
        TextCall::Chr => whole(alloc, run_of(alloc, bytes, b'0')?),
        TextCall::Intval => whole(alloc, run_of(alloc, bytes, b'0')?),
        TextCall::CtypeDigit => whole(alloc, run_of(alloc, bytes, b'0')?),
        TextCall::IsNumeric => whole(alloc, run_of(alloc, bytes, b'0')?),
        TextCall::Intdiv => pair(alloc, run_of(alloc, bytes, b'0')?, Value::Int(7)),
        TextCall::Trim => whole(alloc, run_of(alloc, bytes, b' ')?),
        TextCall::Ltrim => whole(alloc, run_of(alloc, bytes, b' ')?),
        TextCall::Rtrim => whole(alloc, run_of(alloc, bytes, b' ')?),
        _ => whole(alloc, pieces(alloc, bytes, b",")?),
    }
}

/// Calls as often as the plan says, and counts the values.
pub fn run(alloc: Global, plan: &Plan) -> Result<u32, CallFault> {
    let args = arguments(alloc, plan)?;
    let mut done: u32 = 0;
    for _ in 0..plan.times {
        if text_call(alloc, plan.call, args.as_slice()).is_ok() {
            done = done.saturating_add(1);
        }
    }
    Ok(done)
}
