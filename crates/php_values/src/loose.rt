// `==`.

ghost use Rattle.std.specs.Prelude.{◌≡◌, false};
ghost use Rattle.php_values.specs.Data.{data_of};
ghost use Rattle.php_values.specs.Answers.{Gives};
ghost use Rattle.php_values.specs.Looking.{seen_data, optional};
ghost use Rattle.php_values.specs.Compare as spec;
ghost use Rattle.php_values.specs.Meeting.{MeetGives, equal_beside};

use crate::beside::Beside;
use crate::convert::number_or_zero;
use crate::fault::ValueFault;
use crate::number::{is_numeric, leading_number};
use crate::seen::{Seen, look_at, seen_truth, text_truth, two_arrays};
use crate::value::Value;
use crate::walk::MAX_TURNS;
use std::alloc::Global;
use std::mem;

fn same_truth(a: bool, b: bool) -> bool
    ensures { result ≡ spec.same_truth a b }
{
    if a { b } else { !b }
}

fn equals_number(n: i64, text: &[u8]) -> Result<bool, ValueFault>
    ensures { result ≡ spec.equals_number n text.now }
{
    let m = number_or_zero(leading_number(text))?;
    Ok(n == m)
}

fn equal_numbers(s: &[u8], t: &[u8]) -> Result<bool, ValueFault>
    ensures { result ≡ spec.equal_numbers s.now t.now }
{
    let n = number_or_zero(leading_number(s))?;
    equals_number(n, t)
}

fn equal_texts(s: &[u8], t: &[u8]) -> Result<bool, ValueFault>
    ensures { result ≡ spec.equal_texts s.now t.now }
{
    if s == t {
        return Ok(true);
    }
    if is_numeric(s) && is_numeric(t) {
        equal_numbers(s, t)
    } else {
        Ok(false)
    }
}

fn null_equals(b: Seen<'_>) -> Result<bool, ValueFault>
    ensures { result ≡ spec.null_equals (seen_data b.entry) }
{
    match b {
        Seen::Null => Ok(true),
        Seen::Truth(b) => Ok(!b),
        Seen::Int(_) => Ok(!seen_truth(b)),
        Seen::Text(t) => Ok(t.is_empty()),
        Seen::Array(_) => Ok(!seen_truth(b)),
        Seen::Object(_) => Ok(false),
    }
}

fn int_equals(m: i64, b: Seen<'_>) -> Result<bool, ValueFault>
    ensures { result ≡ spec.int_equals m (seen_data b.entry) }
{
    match b {
        Seen::Null => Ok(!seen_truth(Seen::Int(m))),
        Seen::Truth(b) => Ok(same_truth(b, seen_truth(Seen::Int(m)))),
        Seen::Int(n) => Ok(m == n),
        Seen::Text(t) => equals_number(m, t),
        Seen::Array(_) => Ok(false),
        Seen::Object(_) => Err(ValueFault::Kind),
    }
}

fn text_equals(s: &[u8], b: Seen<'_>) -> Result<bool, ValueFault>
    ensures { result ≡ spec.text_equals s.now (seen_data b.entry) }
{
    match b {
        Seen::Null => Ok(s.is_empty()),
        Seen::Truth(b) => Ok(same_truth(b, text_truth(s))),
        Seen::Int(n) => equals_number(n, s),
        Seen::Text(t) => equal_texts(s, t),
        Seen::Array(_) => Ok(false),
        Seen::Object(_) => Err(ValueFault::Kind),
    }
}

fn array_equals(full: bool, b: Seen<'_>) -> Result<bool, ValueFault>
    ensures { result ≡ spec.array_equals full (seen_data b.entry) }
{
    match b {
        Seen::Null => Ok(!full),
        Seen::Truth(b) => Ok(same_truth(b, full)),
        Seen::Int(_) => Ok(false),
        Seen::Text(_) => Ok(false),
        Seen::Array(_) => Ok(false),
        Seen::Object(_) => Ok(false),
    }
}

fn same_object(m: u32, n: u32) -> Result<bool, ValueFault>
    ensures { result ≡ spec.same_object m n }
{
    if m == n {
        Ok(true)
    } else {
        Err(ValueFault::Kind)
    }
}

fn object_equals(m: u32, b: Seen<'_>) -> Result<bool, ValueFault>
    ensures { result ≡ spec.object_equals m (seen_data b.entry) }
{
    match b {
        Seen::Null => Ok(false),
        Seen::Truth(b) => Ok(b),
        Seen::Int(_) => Err(ValueFault::Kind),
        Seen::Text(_) => Err(ValueFault::Kind),
        Seen::Array(_) => Ok(false),
        Seen::Object(n) => same_object(m, n),
    }
}

// Two values that are not both arrays.
fn equal_flat(a: Seen<'_>, b: Seen<'_>) -> Result<bool, ValueFault>
    ensures { result ≡ spec.equal_flat (seen_data a.entry) (seen_data b.entry) }
{
    match a {
        Seen::Null => null_equals(b),
        Seen::Truth(a) => Ok(same_truth(a, seen_truth(b))),
        Seen::Int(m) => int_equals(m, b),
        Seen::Text(s) => text_equals(s, b),
        Seen::Array(_) => array_equals(seen_truth(a), b),
        Seen::Object(m) => object_equals(m, b),
    }
}

// What two values of a key are: the same, different, or two arrays that are to be walked.
#[derive(Drop)]
pub(crate) enum Met<'a> {
    Same,
    Different,
    Inside(Beside<'a>),
}

fn met_by(same: bool) -> Met<'static>
    ensures { MeetGives (spec.Ok same) (spec.Ok result) }
{
    if same { Met::Same } else { Met::Different }
}

fn meet<'a>(a: &'a Value, b: &'a Value) -> Result<Met<'a>, ValueFault>
    ensures { MeetGives (spec.loose_equal (data_of a.now) (data_of b.now)) result }
{
    let a = look_at(a);
    let b = look_at(b);
    let Some((x, y)) = two_arrays(a, b) else {
        return Ok(met_by(equal_flat(a, b)?));
    };
    if x.len() == y.len() {
        Ok(Met::Inside(Beside::new(x, y)))
    } else {
        Ok(Met::Different)
    }
}

fn meet_found<'a>(a: &'a Value, b: Option<&'a Value>) -> Result<Met<'a>, ValueFault>
    ensures { MeetGives (spec.in_right (spec.Ok false) (spec.loose_equal (data_of a.now)) (optional b.entry)) result }
{
    match b {
        None => Ok(Met::Different),
        Some(b) => meet(a, b),
    }
}

fn walk_all<'a>(alloc: Global, first: Beside<'a>) -> Result<bool, ValueFault>
    ensures { Gives (equal_beside first.entry) result }
{
    let mut above: Vec<Beside<'a>> = Vec::new(alloc);
    let mut beside = first;
    for _ in 0..MAX_TURNS {
        let Some((_, value, other)) = beside.next() else {
            let Some(outer) = above.pop() else {
                return Ok(true);
            };
            beside = outer;
            continue;
        };
        match meet_found(value, other)? {
            Met::Same => {}
            Met::Different => return Ok(false),
            Met::Inside(inner) => above.push(mem::replace(&mut beside, inner))?,
        }
    }
    Err(ValueFault::Memory)
}

/// Whether two values are equal by `==`. Arrays in arrays are compared by a loop.
pub fn loose_eq(alloc: Global, a: &Value, b: &Value) -> Result<bool, ValueFault>
    ensures { Gives (spec.loose_equal (data_of a.now) (data_of b.now)) result }
{
    match meet(a, b)? {
        Met::Same => Ok(true),
        Met::Different => Ok(false),
        Met::Inside(beside) => walk_all(alloc, beside),
    }
}
