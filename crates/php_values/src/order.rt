// `<=>`.

ghost use Rattle.std.specs.Prelude.{◌≡◌};
ghost use Rattle.php_values.specs.Data.{data_of};
ghost use Rattle.php_values.specs.Answers.{Gives};
ghost use Rattle.php_values.specs.Looking.{seen_data, optional};
ghost use Rattle.php_values.specs.declared.fault.ValueFault.TheVariants.{Kind};
ghost use Rattle.php_values.specs.Compare as spec;
ghost use Rattle.php_values.specs.Ranking.{RankGives, order_beside};

use crate::beside::Beside;
use crate::convert::number_or_zero;
use crate::fault::ValueFault;
use crate::number::{is_numeric, leading_number};
use crate::seen::{Seen, look_at, seen_truth, text_truth, two_arrays};
use crate::value::Value;
use crate::walk::MAX_TURNS;
use std::alloc::Global;
use std::cmp::Ordering;
use std::mem;

fn order_of_number(n: i64, text: &[u8]) -> Result<Ordering, ValueFault>
    ensures { result ≡ spec.order_of_number n text.now }
{
    let m = number_or_zero(leading_number(text))?;
    Ok(n.cmp(&m))
}

fn order_to_number(text: &[u8], n: i64) -> Result<Ordering, ValueFault>
    ensures { result ≡ spec.order_to_number text.now n }
{
    let m = number_or_zero(leading_number(text))?;
    Ok(m.cmp(&n))
}

fn order_of_numbers(s: &[u8], t: &[u8]) -> Result<Ordering, ValueFault>
    ensures { result ≡ spec.order_of_numbers s.now t.now }
{
    let n = number_or_zero(leading_number(s))?;
    order_of_number(n, t)
}

fn order_of_texts(s: &[u8], t: &[u8]) -> Result<Ordering, ValueFault>
    ensures { result ≡ spec.order_of_texts s.now t.now }
{
    if s == t {
        return Ok(Ordering::Equal);
    }
    if is_numeric(s) && is_numeric(t) {
        order_of_numbers(s, t)
    } else {
        Ok(s.cmp(t))
    }
}

fn null_order(b: Seen<'_>) -> Result<Ordering, ValueFault>
    ensures { result ≡ spec.null_order (seen_data b.entry) }
{
    match b {
        Seen::Null => Ok(Ordering::Equal),
        Seen::Truth(b) => Ok(false.cmp(&b)),
        Seen::Int(_) => Ok(false.cmp(&seen_truth(b))),
        Seen::Text(t) => Ok(b"".as_slice().cmp(t)),
        Seen::Array(_) => Ok(false.cmp(&seen_truth(b))),
        Seen::Object(_) => Ok(Ordering::Less),
    }
}

fn int_order(m: i64, b: Seen<'_>) -> Result<Ordering, ValueFault>
    ensures { result ≡ spec.int_order m (seen_data b.entry) }
{
    match b {
        Seen::Null => Ok(seen_truth(Seen::Int(m)).cmp(&false)),
        Seen::Truth(b) => Ok(seen_truth(Seen::Int(m)).cmp(&b)),
        Seen::Int(n) => Ok(m.cmp(&n)),
        Seen::Text(t) => order_of_number(m, t),
        Seen::Array(_) => Err(ValueFault::Kind),
        Seen::Object(_) => Err(ValueFault::Kind),
    }
}

fn text_order(s: &[u8], b: Seen<'_>) -> Result<Ordering, ValueFault>
    ensures { result ≡ spec.text_order s.now (seen_data b.entry) }
{
    match b {
        Seen::Null => Ok(s.cmp(b"".as_slice())),
        Seen::Truth(b) => Ok(text_truth(s).cmp(&b)),
        Seen::Int(n) => order_to_number(s, n),
        Seen::Text(t) => order_of_texts(s, t),
        Seen::Array(_) => Err(ValueFault::Kind),
        Seen::Object(_) => Err(ValueFault::Kind),
    }
}

fn truth_order(full: bool, b: Seen<'_>) -> Result<Ordering, ValueFault>
    ensures { result ≡ spec.truth_order full (seen_data b.entry) }
{
    match b {
        Seen::Null => Ok(full.cmp(&false)),
        Seen::Truth(b) => Ok(full.cmp(&b)),
        Seen::Int(_) => Err(ValueFault::Kind),
        Seen::Text(_) => Err(ValueFault::Kind),
        Seen::Array(_) => Err(ValueFault::Kind),
        Seen::Object(_) => Err(ValueFault::Kind),
    }
}

// Two values that are not both arrays.
fn order_flat(a: Seen<'_>, b: Seen<'_>) -> Result<Ordering, ValueFault>
    ensures { result ≡ spec.order_flat (seen_data a.entry) (seen_data b.entry) }
{
    match a {
        Seen::Null => null_order(b),
        Seen::Truth(a) => Ok(a.cmp(&seen_truth(b))),
        Seen::Int(m) => int_order(m, b),
        Seen::Text(s) => text_order(s, b),
        Seen::Array(_) => truth_order(seen_truth(a), b),
        Seen::Object(_) => truth_order(true, b),
    }
}

// How two values of a key stand to each other: equal, less, greater, or two arrays that are to be walked.
#[derive(Drop)]
pub(crate) enum Rank<'a> {
    Equal,
    Less,
    Greater,
    Inside(Beside<'a>),
}

fn rank_of(order: Ordering) -> Rank<'static>
    ensures { RankGives (spec.Ok order) (spec.Ok result) }
{
    match order {
        Ordering::Less => Rank::Less,
        Ordering::Equal => Rank::Equal,
        Ordering::Greater => Rank::Greater,
    }
}

fn ranked<'a>(a: &'a Value, b: &'a Value) -> Result<Rank<'a>, ValueFault>
    ensures { RankGives (spec.order (data_of a.now) (data_of b.now)) result }
{
    let a = look_at(a);
    let b = look_at(b);
    let Some((x, y)) = two_arrays(a, b) else {
        return Ok(rank_of(order_flat(a, b)?));
    };
    match x.len().cmp(&y.len()) {
        Ordering::Less => Ok(Rank::Less),
        Ordering::Equal => Ok(Rank::Inside(Beside::new(x, y))),
        Ordering::Greater => Ok(Rank::Greater),
    }
}

fn rank_found<'a>(a: &'a Value, b: Option<&'a Value>) -> Result<Rank<'a>, ValueFault>
    ensures { RankGives (spec.in_right (spec.Err Kind) (spec.order (data_of a.now)) (optional b.entry)) result }
{
    match b {
        None => Err(ValueFault::Kind),
        Some(b) => ranked(a, b),
    }
}

fn walk_all<'a>(alloc: Global, first: Beside<'a>) -> Result<Ordering, ValueFault>
    ensures { Gives (order_beside first.entry) result }
{
    let mut above: Vec<Beside<'a>> = Vec::new(alloc);
    let mut beside = first;
    for _ in 0..MAX_TURNS {
        let Some((_, value, other)) = beside.next() else {
            let Some(outer) = above.pop() else {
                return Ok(Ordering::Equal);
            };
            beside = outer;
            continue;
        };
        match rank_found(value, other)? {
            Rank::Equal => {}
            Rank::Less => return Ok(Ordering::Less),
            Rank::Greater => return Ok(Ordering::Greater),
            Rank::Inside(inner) => above.push(mem::replace(&mut beside, inner))?,
        }
    }
    Err(ValueFault::Memory)
}

/// The order of two values by `<=>`. Arrays in arrays are compared by a loop.
pub fn compare(alloc: Global, a: &Value, b: &Value) -> Result<Ordering, ValueFault>
    ensures { Gives (spec.order (data_of a.now) (data_of b.now)) result }
{
    match ranked(a, b)? {
        Rank::Equal => Ok(Ordering::Equal),
        Rank::Less => Ok(Ordering::Less),
        Rank::Greater => Ok(Ordering::Greater),
        Rank::Inside(beside) => walk_all(alloc, beside),
    }
}
