// `===`.

ghost use Rattle.std.specs.Prelude.{◌≡◌, [], IfOk};
ghost use Rattle.php_values.specs.Data.{data_of, null, truth, int, bytes, object};
ghost use Rattle.php_values.specs.Looking.{seen_data};
ghost use Rattle.php_values.specs.Walks.{rest_of};
ghost use Rattle.php_values.specs.Compare as spec;
ghost use Rattle.php_values.specs.Identity.{LinkIs, NextIs, same_both};

use crate::seen::{Seen, look_at, two_arrays};
use crate::value::Value;
use crate::walk::{MAX_TURNS, Walk};
use std::alloc::{AllocError, Global};
use std::mem;

fn same_null(b: Seen<'_>) -> bool
    ensures { result ≡ spec.same_flat null (seen_data b.entry) }
{
    matches!(b, Seen::Null)
}

fn same_truth(m: bool, b: Seen<'_>) -> bool
    ensures { result ≡ spec.same_flat (truth m) (seen_data b.entry) }
{
    match b {
        Seen::Truth(n) => if m { n } else { !n },
        _ => false,
    }
}

fn same_number(m: i64, b: Seen<'_>) -> bool
    ensures { result ≡ spec.same_flat (int m) (seen_data b.entry) }
{
    match b {
        Seen::Int(n) => m == n,
        _ => false,
    }
}

fn same_text(s: &[u8], b: Seen<'_>) -> bool
    ensures { result ≡ spec.same_flat (bytes s.now) (seen_data b.entry) }
{
    match b {
        Seen::Text(t) => s == t,
        _ => false,
    }
}

fn same_object(m: u32, b: Seen<'_>) -> bool
    ensures { result ≡ spec.same_flat (object m) (seen_data b.entry) }
{
    match b {
        Seen::Object(n) => m == n,
        _ => false,
    }
}

// Two values that are not both arrays.
fn same_flat(a: Seen<'_>, b: Seen<'_>) -> bool
    ensures { result ≡ spec.same_flat (seen_data a.entry) (seen_data b.entry) }
{
    match a {
        Seen::Null => same_null(b),
        Seen::Truth(m) => same_truth(m, b),
        Seen::Int(m) => same_number(m, b),
        Seen::Text(s) => same_text(s, b),
        Seen::Array(_) => false,
        Seen::Object(m) => same_object(m, b),
    }
}

// Walks over two arrays at once.
#[derive(Drop)]
pub(crate) struct Both<'a> {
    pub(crate) left: Walk<'a>,
    pub(crate) right: Walk<'a>,
}

// What two values are: the same, different, or two arrays that are to be walked.
#[derive(Drop)]
pub(crate) enum Link<'a> {
    Same,
    Different,
    Inside(Both<'a>),
}

fn linked<'a>(a: &'a Value, b: &'a Value) -> Link<'a>
    ensures { LinkIs (spec.strict_same (data_of a.now) (data_of b.now)) result }
{
    let a = look_at(a);
    let b = look_at(b);
    if let Some((x, y)) = two_arrays(a, b) {
        let left = Walk::new(x);
        let right = Walk::new(y);
        return Link::Inside(Both { left, right });
    }
    if same_flat(a, b) {
        Link::Same
    } else {
        Link::Different
    }
}

// What the next pairs of both walks are; `None` where both have none left.
fn next_link<'a>(both: &mut Both<'a>) -> Option<Link<'a>>
    ensures { NextIs both.old both.new result }
{
    let Some((key, value)) = both.left.next() else {
        return no_more(both);
    };
    let Some((other_key, other)) = both.right.next() else {
        return Some(Link::Different);
    };
    if !key.is_same(other_key) {
        return Some(Link::Different);
    }
    Some(linked(value, other))
}

// The same where the left walk has none left.
fn no_more<'a>(both: &mut Both<'a>) -> Option<Link<'a>>
    requires { rest_of both.old.left ≡ [] }
    ensures { NextIs both.old both.new result }
{
    if both.right.next().is_some() {
        Some(Link::Different)
    } else {
        None
    }
}

fn walk_all<'a>(alloc: Global, first: Both<'a>) -> Result<bool, AllocError>
    ensures { IfOk result (λ b. b ≡ same_both first.entry) }
{
    let mut above: Vec<Both<'a>> = Vec::new(alloc);
    let mut both = first;
    for _ in 0..MAX_TURNS {
        let Some(link) = next_link(&mut both) else {
            let Some(outer) = above.pop() else {
                return Ok(true);
            };
            both = outer;
            continue;
        };
        match link {
            Link::Same => {}
            Link::Different => return Ok(false),
            Link::Inside(inner) => above.push(mem::replace(&mut both, inner))?,
        }
    }
    Err(AllocError)
}

/// Whether two values are equal by `===`. Arrays in arrays are compared by a loop, which may want memory.
pub fn strict_eq(alloc: Global, a: &Value, b: &Value) -> Result<bool, AllocError>
    ensures { IfOk result (λ same. same ≡ spec.strict_same (data_of a.now) (data_of b.now)) }
{
    match linked(a, b) {
        Link::Same => Ok(true),
        Link::Different => Ok(false),
        Link::Inside(both) => walk_all(alloc, both),
    }
}
