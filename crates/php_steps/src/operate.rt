// Operators on values.

ghost use Rattle.std.specs.Prelude.{◌≡◌, IfOk, option_map};
ghost use Rattle.php_tree.specs.declared.expr.UnaryOp.TheVariants as unary;
ghost use Rattle.php_values.specs.Data.{truth, data_of};
ghost use Rattle.php_meaning.specs.Constants as constants;
ghost use Rattle.php_meaning.specs.Operators as meaning;
ghost use Rattle.php_rest.specs.Outcomes.{Answers, equal_or_not, order_data};

use order_map::{Key, OrderMap};
use php_meaning::FatalName;
use php_rest::{Outcome, operand_refused, text_refused, value_refused};
use php_tree::expr::{ChainOp, CompareOp, UnaryOp};
use php_values::{
    ArithOp, ArrayValue, Value, arith, compare, loose_eq, strict_eq, to_int, to_text, truth,
};
use std::alloc::{AllocError, Global};
use std::cmp::Ordering;

/// An operation of arithmetic, or a join.
pub fn computed(alloc: Global, op: ArithOp, a: &Value, b: &Value) -> Result<Outcome, AllocError>
    ensures { Answers (meaning.computed op (data_of a.now) (data_of b.now)) result }
{
    match arith(alloc, op, a, b) {
        Ok(value) => Ok(Outcome::Gives(value)),
        Err(fault) => Ok(Outcome::Fails(operand_refused(op, fault)?)),
    }
}

/// The value of a chain where its left operand decides it.
pub(crate) fn decided(op: ChainOp, a: &Value) -> Option<bool>
    ensures { meaning.decided op (data_of a.now) ≡ option_map truth result }
{
    match op {
        ChainOp::LowOr | ChainOp::Or => if truth(a) { Some(true) } else { None },
        ChainOp::LowAnd | ChainOp::And => if truth(a) { None } else { Some(false) },
        _ => None,
    }
}

/// Both operands of a chain.
pub fn chained(alloc: Global, op: ChainOp, a: &Value, b: &Value) -> Result<Outcome, AllocError>
    ensures { Answers (meaning.chained op (data_of a.now) (data_of b.now)) result }
{
    match op {
        ChainOp::LowOr => Ok(Outcome::Gives(Value::Bool(truth(b)))),
        ChainOp::LowXor => Ok(Outcome::Gives(Value::Bool(truth(a) != truth(b)))),
        ChainOp::LowAnd => Ok(Outcome::Gives(Value::Bool(truth(b)))),
        ChainOp::Or => Ok(Outcome::Gives(Value::Bool(truth(b)))),
        ChainOp::And => Ok(Outcome::Gives(Value::Bool(truth(b)))),
        ChainOp::Add => computed(alloc, ArithOp::Add, a, b),
        ChainOp::Sub => computed(alloc, ArithOp::Subtract, a, b),
        ChainOp::Join => computed(alloc, ArithOp::Join, a, b),
        ChainOp::Mul => computed(alloc, ArithOp::Multiply, a, b),
        ChainOp::Div => computed(alloc, ArithOp::Divide, a, b),
        ChainOp::Rem => computed(alloc, ArithOp::Remainder, a, b),
    }
}

// Whether two values are equal, or not equal where `equal` is false.
fn equality(alloc: Global, equal: bool, a: &Value, b: &Value) -> Result<Outcome, AllocError>
    ensures { Answers (meaning.equality (equal_or_not equal) (data_of a.now) (data_of b.now)) result }
{
    match loose_eq(alloc, a, b) {
        Ok(same) => Ok(Outcome::Gives(Value::Bool(same == equal))),
        Err(fault) => Ok(Outcome::Fails(value_refused(fault)?)),
    }
}

fn number_of(order: Ordering) -> i64
    ensures { result ≡ meaning.number_of order }
{
    match order {
        Ordering::Less => -1,
        Ordering::Equal => 0,
        Ordering::Greater => 1,
    }
}

// The value of a comparison by order.
fn order_value(op: CompareOp, order: Ordering) -> Value
    ensures { data_of result ≡ order_data op order }
{
    match op {
        CompareOp::Less => Value::Bool(matches!(order, Ordering::Less)),
        CompareOp::LessEqual => Value::Bool(!matches!(order, Ordering::Greater)),
        CompareOp::Greater => Value::Bool(matches!(order, Ordering::Greater)),
        CompareOp::GreaterEqual => Value::Bool(!matches!(order, Ordering::Less)),
        _ => Value::Int(number_of(order)),
    }
}

fn ordering(alloc: Global, op: CompareOp, a: &Value, b: &Value) -> Result<Outcome, AllocError>
    ensures { Answers (meaning.ordering (order_data op) (data_of a.now) (data_of b.now)) result }
{
    match compare(alloc, a, b) {
        Ok(order) => Ok(Outcome::Gives(order_value(op, order))),
        Err(fault) => Ok(Outcome::Fails(value_refused(fault)?)),
    }
}

/// A comparison.
pub fn compared(alloc: Global, op: CompareOp, a: &Value, b: &Value) -> Result<Outcome, AllocError>
    ensures { Answers (meaning.compared op (data_of a.now) (data_of b.now)) result }
{
    match op {
        CompareOp::Equal => equality(alloc, true, a, b),
        CompareOp::NotEqual => equality(alloc, false, a, b),
        CompareOp::Identical => Ok(Outcome::Gives(Value::Bool(strict_eq(alloc, a, b)?))),
        CompareOp::NotIdentical => Ok(Outcome::Gives(Value::Bool(!strict_eq(alloc, a, b)?))),
        CompareOp::Order => ordering(alloc, op, a, b),
        CompareOp::Less => ordering(alloc, op, a, b),
        CompareOp::LessEqual => ordering(alloc, op, a, b),
        CompareOp::Greater => ordering(alloc, op, a, b),
        CompareOp::GreaterEqual => ordering(alloc, op, a, b),
    }
}

// The number of a value.
fn int_outcome(value: &Value) -> Result<Outcome, AllocError>
    ensures { Answers (meaning.before_value unary.ToInt (data_of value.now)) result }
{
    match to_int(value) {
        Ok(n) => Ok(Outcome::Gives(Value::Int(n))),
        Err(fault) => Ok(Outcome::Fails(value_refused(fault)?)),
    }
}

// The text of a value.
fn text_outcome(alloc: Global, value: &Value) -> Result<Outcome, AllocError>
    ensures { Answers (meaning.before_value unary.ToText (data_of value.now)) result }
{
    match to_text(alloc, value) {
        Ok(text) => Ok(Outcome::Gives(Value::Bytes(text))),
        Err(fault) => Ok(Outcome::Fails(text_refused(fault)?)),
    }
}

// An array of one element.
fn one_element(alloc: Global, value: Value) -> Result<Value, AllocError>
    ensures { IfOk result (λ v. data_of v ≡ meaning.one_element (data_of value)) }
{
    let mut map = OrderMap::new(alloc);
    let _none = map.set(Key::Int(0), value)?;
    Ok(Value::List(ArrayValue::new(alloc, map)?))
}

/// An array without elements.
pub(crate) fn no_elements(alloc: Global) -> Result<Value, AllocError>
    ensures { IfOk result (λ v. data_of v ≡ constants.no_elements) }
{
    Ok(Value::List(ArrayValue::new(alloc, OrderMap::new(alloc))?))
}

// The array of a value.
fn array_outcome(alloc: Global, value: Value) -> Result<Outcome, AllocError>
    ensures { Answers (meaning.to_array (data_of value)) result }
{
    match value {
        Value::Null => Ok(Outcome::Gives(no_elements(alloc)?)),
        Value::Bool(b) => Ok(Outcome::Gives(one_element(alloc, Value::Bool(b))?)),
        Value::Int(n) => Ok(Outcome::Gives(one_element(alloc, Value::Int(n))?)),
        Value::Bytes(text) => Ok(Outcome::Gives(one_element(alloc, Value::Bytes(text))?)),
        Value::List(array) => Ok(Outcome::Gives(Value::List(array))),
        Value::Object(_) => Ok(Outcome::Fails(FatalName::Mistyped)),
    }
}

/// An operator before a value.
pub fn before(alloc: Global, op: UnaryOp, value: Value) -> Result<Outcome, AllocError>
    ensures { Answers (meaning.before_value op (data_of value)) result }
{
    match op {
        UnaryOp::Not => Ok(Outcome::Gives(Value::Bool(!truth(&value)))),
        UnaryOp::Plus => computed(alloc, ArithOp::Add, &Value::Int(0), &value),
        UnaryOp::Minus => computed(alloc, ArithOp::Subtract, &Value::Int(0), &value),
        UnaryOp::Silence => Ok(Outcome::Gives(value)),
        UnaryOp::ToInt => int_outcome(&value),
        UnaryOp::ToText => text_outcome(alloc, &value),
        UnaryOp::ToBool => Ok(Outcome::Gives(Value::Bool(truth(&value)))),
        UnaryOp::ToArray => array_outcome(alloc, value),
    }
}
