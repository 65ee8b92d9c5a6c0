// Texts with parts that are evaluated.

ghost use Rattle.std.specs.Prelude.{◌≡◌, [], ◌∷◌, false, IfOk};
ghost use Rattle.php_values.specs.Data.{data_of};
ghost use Rattle.php_world.specs.Naming.{Naming};
ghost use Rattle.php_world.specs.Variables.{value_of};
ghost use Rattle.php_world.specs.View.{vars_of, step_of};
ghost use Rattle.php_meaning.specs.Course.{Then, give};
ghost use Rattle.php_meaning.specs.World.{World, with_vars};
ghost use Rattle.php_meaning.specs.Operators as meaning;
ghost use Rattle.php_meaning.specs.Stores.{place_read};
ghost use Rattle.php_meaning.specs.Expressions as expressions;
ghost use Rattle.php_rest.specs.Laws.{Reads};
ghost use Rattle.php_steps.specs.Nodes.{is_node};
ghost use Rattle.php_rest.specs.Rest.{next_of};
ghost use Rattle.php_rest.specs.Named.{key_named, parts_named};

use backward_list::Backward;
use order_map::ByteText;
use php_meaning::FatalName;
use php_rest::{ExprFrame, Frame, Now, place_refused, text_refused};
use php_tree::expr::{Expr, QuoteKey, QuotePart};
use php_values::{Value, to_text};
use php_world::{Reading, Step, Store};
use std::alloc::{AllocError, Global};

/// The greatest length of a text, in bytes.
const MAX_TEXT_BYTES: usize = 0x10_0000;

/// What a variable holds.
pub fn variable(store: &Store, number: u32) -> Result<Value, AllocError>
    ensures { IfOk result (λ v. (t : Naming) → data_of v ≡ value_of (t.name number) (vars_of t store.now)) }
{
    match store.value(number as usize) {
        Some(value) => {
            let copy = value.clone()?;
            Ok(copy)
        }
        None => Ok(Value::Null),
    }
}

// The value of a key that stands in a text.
fn key_value(alloc: Global, key: &QuoteKey, store: &Store) -> Result<Value, AllocError>
    ensures { IfOk result (λ v. (t : Naming) (w : World) → data_of v ≡ expressions.key_data (key_named t key.now) (with_vars (vars_of t store.now) w)) }
{
    match key {
        QuoteKey::Int(n) => Ok(Value::Int(*n)),
        QuoteKey::Text(text) => Ok(Value::Bytes(ByteText::from_slice(alloc, text.as_slice())?)),
        QuoteKey::Var(number) => {
            let value = variable(store, *number)?;
            Ok(value)
        }
    }
}

// What is read of a variable one step in, under the frames of the stack.
fn read_one<'a>(
    alloc: Global,
    number: u32,
    step: Step,
    store: &Store,
) -> Result<Now<'a>, AllocError>
    ensures plain { IfOk result (λ now. is_node now ≡ false) }
    ensures law { IfOk result (λ now. (t : Naming) (w : World) (k : Then) → next_of t now (with_vars (vars_of t store.now) w) k ≡ place_read (t.name number) (step_of step ∷ []) give (with_vars (vars_of t store.now) w) k) }
{
    match store.read(alloc, Reading::Plain, number as usize, &[step]) {
        Ok(value) => Ok(Now::Give(value)),
        Err(fault) => Ok(Now::Fail(place_refused(fault)?)),
    }
}

/// The parts that are still to be evaluated.
pub(crate) fn go_on<'a>(
    alloc: Global,
    so_far: ByteText,
    parts: &'a [QuotePart<Expr>],
    store: &Store,
    stack: &mut Backward<Frame<'a>>,
) -> Result<Now<'a>, AllocError>
    ensures law { IfOk result (Reads store.now stack.old stack.new (λ t. expressions.parts (parts_named t parts.now) so_far)) }
    ensures plain { IfOk result (λ now. is_node now ≡ false) }
{
    match parts {
        [] => Ok(Now::Give(Value::Bytes(so_far))),
        [first, more @ ..] => {
            stack.push(Frame::OfExpr(ExprFrame::Quoted(so_far, more)))?;
            match first {
                QuotePart::Bytes(bytes) => Ok(Now::Give(Value::Bytes(ByteText::from_slice(
                    alloc,
                    bytes.as_slice(),
                )?))),
                QuotePart::Var(number) => {
                    let value = variable(store, *number)?;
                    Ok(Now::Give(value))
                }
                QuotePart::Index(number, key) => {
                    let key = key_value(alloc, key, store)?;
                    let now = read_one(alloc, *number, Step::At(key), store)?;
                    Ok(now)
                }
                QuotePart::Property(number, name) => {
                    let name = ByteText::from_slice(alloc, name.text.as_slice())?;
                    let now = read_one(alloc, *number, Step::Member(name), store)?;
                    Ok(now)
                }
                QuotePart::Embedded(part) => Ok(Now::Evaluate(part)),
            }
        }
    }
}

/// The text with a value's text behind it, and the other parts.
pub(crate) fn with_text<'a>(
    alloc: Global,
    so_far: ByteText,
    value: &Value,
    parts: &'a [QuotePart<Expr>],
    store: &Store,
    stack: &mut Backward<Frame<'a>>,
) -> Result<Now<'a>, AllocError>
    ensures { IfOk result (Reads store.now stack.old stack.new (λ t. expressions.with_text so_far (expressions.parts (parts_named t parts.now)) (data_of value.now))) }
{
    let text = match to_text(alloc, value) {
        Ok(text) => text,
        Err(fault) => return Ok(Now::Fail(text_refused(fault)?)),
    };
    let now = extended(alloc, so_far, text.as_slice(), parts, store, stack)?;
    Ok(now)
}

// The text with more bytes behind it, where it does not grow too long, and the other parts.
fn extended<'a>(
    alloc: Global,
    so_far: ByteText,
    more: &[u8],
    parts: &'a [QuotePart<Expr>],
    store: &Store,
    stack: &mut Backward<Frame<'a>>,
) -> Result<Now<'a>, AllocError>
    ensures { IfOk result (Reads store.now stack.old stack.new (λ t. meaning.extended so_far more.now (expressions.parts (parts_named t parts.now)))) }
{
    if so_far.len() > MAX_TEXT_BYTES || more.len() > MAX_TEXT_BYTES - so_far.len() {
        return Ok(Now::Fail(FatalName::Size));
    }
    let mut so_far = so_far;
    so_far.extend_from_slice(more)?;
    let now = go_on(alloc, so_far, parts, store, stack)?;
    Ok(now)
}
