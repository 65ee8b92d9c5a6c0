// Calls that put an array in order.

ghost use Rattle.std.specs.Prelude.{◌≡◌, map, is_some, ◌≢◌, ◌≤◌, MatchOption, IfOk, IfErr, OnOk};
ghost use Rattle.order_map.specs.Keys.{spent};
ghost use Rattle.php_arguments.specs.declared.fault.CallFault.TheVariants.{Memory};
ghost use Rattle.std.specs.List.{list_all};
ghost use Rattle.std.specs.Ordering.{is_lt};
ghost use Rattle.stable_sort.specs.Sorting.{sort_by};
ghost use Rattle.php_values.specs.Data.{array_of, array_next, int};
ghost use Rattle.php_arguments.specs.Answers.{datas};
ghost use Rattle.php_arguments.specs.Results.{array_list};
ghost use Rattle.php_list_calls.specs.Items as item;
ghost use Rattle.php_list_calls.specs.Pairs.{lent_items, lent_item};
ghost use Rattle.php_list_calls.specs.Orders as orders;
ghost use Rattle.php_list_calls.specs.Ranks as ranks;
ghost use Rattle.php_list_calls.specs.ListCalls as spec;

use crate::build::{add_value, set_item};
use crate::ends::next_number;
use crate::first::put_first;
use crate::look::only_array;
use crate::pairs::{Pair, pairs_in};
use order_map::{Key, OrderMap};
use php_arguments::CallFault;
use php_values::{Value, is_numeric};
use stable_sort::{Ranked, sort_down, sort_up};
use std::alloc::{AllocError, Global};

/// What items are sorted by.
#[derive(Clone, Copy, Debug, PartialEq, Eq)]
pub(crate) enum Part {
    ByKey,
    ByValue,
}

/// Which way items are sorted.
#[derive(Clone, Copy, Debug, PartialEq, Eq)]
pub(crate) enum Way {
    Rising,
    Falling,
}

// The number that a pair is sorted by, if it is one.
fn number_of(part: Part, pair: Pair<'_>) -> Option<i64>
    ensures { result ≡ ranks.number_in (orders.ranked_by part (lent_item pair.entry)) }
{
    match part {
        Part::ByKey => match pair.key {
            Key::Int(n) => Some(*n),
            Key::Text(_) => None,
        },
        Part::ByValue => match pair.value {
            Value::Int(n) => Some(*n),
            _ => None,
        },
    }
}

// A text that is no number.
fn word(text: &[u8]) -> Option<&[u8]>
    ensures { ranks.lent result ≡ ranks.word text.now }
{
    if is_numeric(text) { None } else { Some(text) }
}

// The text that a pair is sorted by, if it is one that is no number.
fn word_of<'a>(part: Part, pair: Pair<'a>) -> Option<&'a [u8]>
    ensures { ranks.lent result ≡ ranks.word_in (orders.ranked_by part (lent_item pair.entry)) }
{
    match part {
        Part::ByKey => match pair.key {
            Key::Int(_) => None,
            Key::Text(text) => word(text.as_slice()),
        },
        Part::ByValue => match pair.value {
            Value::Bytes(text) => word(text.as_slice()),
            _ => None,
        },
    }
}

// The pairs with the numbers that they are sorted by, if all are numbers.
fn numbered<'a>(
    alloc: Global,
    part: Part,
    pairs: &[Pair<'a>],
) -> Result<Option<Vec<Ranked<i64, Pair<'a>>>>, AllocError>
    ensures all { IfOk result (λ o. is_some o ≡ list_all (λ e. orders.is_number (orders.ranked_by part e)) (lent_items pairs.now)) }
    ensures ranked { IfOk result (λ o. MatchOption o Unit (λ v. ranks.with_ranks int v.items ≡ ranks.ranked_items part (lent_items pairs.now))) }
{
    let mut ranked = Vec::with_capacity(alloc, pairs.len())?;
    for pair in pairs {
        match number_of(part, *pair) {
            None => return Ok(None),
            Some(rank) => ranked.push(Ranked { rank, thing: *pair })?,
        }
    }
    Ok(Some(ranked))
}

// The pairs with the texts that they are sorted by, if all are texts that are no numbers.
fn worded<'a>(
    alloc: Global,
    part: Part,
    pairs: &[Pair<'a>],
) -> Result<Option<Vec<Ranked<&'a [u8], Pair<'a>>>>, AllocError>
    ensures all { IfOk result (λ o. is_some o ≡ list_all (λ e. orders.is_word (orders.ranked_by part e)) (lent_items pairs.now)) }
    ensures ranked { IfOk result (λ o. MatchOption o Unit (λ v. ranks.with_ranks ranks.text_data v.items ≡ ranks.ranked_items part (lent_items pairs.now))) }
{
    let mut ranked = Vec::with_capacity(alloc, pairs.len())?;
    for pair in pairs {
        match word_of(part, *pair) {
            None => return Ok(None),
            Some(rank) => ranked.push(Ranked { rank, thing: *pair })?,
        }
    }
    Ok(Some(ranked))
}

// Sorts things by their ranks. What ties keeps its order.
fn in_way<K: Ord>(way: Way, ranked: &mut Vec<Ranked<K, Pair<'_>>>) -> Result<(), AllocError>
    ensures { OnOk result (ranked.new.items ≡ sort_by (ranks.earlier (λ x y. is_lt (K.cmp x y)) way) ranked.old.items) }
{
    match way {
        Way::Rising => sort_up(ranked),
        Way::Falling => sort_down(ranked),
    }
}

// The pairs without their ranks.
fn things<'a, K>(alloc: Global, ranked: &[Ranked<K, Pair<'a>>]) -> Result<Vec<Pair<'a>>, AllocError>
    ensures { IfOk result (λ v. v.items ≡ map (λ r. r.thing) ranked.now) }
{
    let mut pairs = Vec::with_capacity(alloc, ranked.len())?;
    for one in ranked {
        pairs.push(one.thing)?;
    }
    Ok(pairs)
}

// Pairs in the order of their ranks.
fn sorted<'a, K: Ord + Drop>(
    alloc: Global,
    way: Way,
    ranked: Vec<Ranked<K, Pair<'a>>>,
) -> Result<Vec<Pair<'a>>, AllocError>
    ensures { IfOk result (λ v. v.items ≡ map (λ r. r.thing) (sort_by (ranks.earlier (λ x y. is_lt (K.cmp x y)) way) ranked.entry.items)) }
{
    let mut ranked = ranked;
    in_way(way, &mut ranked)?;
    things(alloc, ranked.as_slice())
}

// Pairs in order, where they have one.
fn in_order<'a>(
    alloc: Global,
    way: Way,
    part: Part,
    pairs: &[Pair<'a>],
) -> Result<Vec<Pair<'a>>, CallFault>
    ensures ok { IfOk result (λ v. orders.in_order way part (lent_items pairs.now) ≡ spec.Ok (lent_items v.items)) }
    ensures err { IfErr result (λ f. f ≢ Memory → orders.in_order way part (lent_items pairs.now) ≡ spec.Err f) }
{
    if let Some(ranked) = numbered(alloc, part, pairs)? {
        let sorted = sorted(alloc, way, ranked)?;
        return Ok(sorted);
    }
    if let Some(ranked) = worded(alloc, part, pairs)? {
        let sorted = sorted(alloc, way, ranked)?;
        return Ok(sorted);
    }
    Err(CallFault::Sort)
}

// The values of pairs as a list.
fn list_of(alloc: Global, pairs: &[Pair<'_>]) -> Result<OrderMap<Value>, AllocError>
    ensures { IfOk result (λ m. array_of m ≡ array_list (item.values_of (lent_items pairs.now))) }
{
    let mut list = OrderMap::new(alloc);
    for pair in pairs {
        add_value(&mut list, pair.value.clone()?)?;
    }
    Ok(list)
}

// Pairs as an array with a next key of at least a number.
fn array_with(alloc: Global, next: u64, pairs: &[Pair<'_>]) -> Result<OrderMap<Value>, AllocError>
    requires { next ≤ spent }
    ensures { IfOk result (λ m. array_of m ≡ item.with_next_key next (item.with_all item.empty (lent_items pairs.now))) }
{
    let mut map = OrderMap::new(alloc);
    for pair in pairs {
        set_item(&mut map, pair.key, pair.value)?;
    }
    map.raise_next(next);
    Ok(map)
}

// The values of an array in order, as a list.
fn listed(alloc: Global, way: Way, array: &OrderMap<Value>) -> Result<OrderMap<Value>, CallFault>
    ensures { spec.GivesMap (spec.listed way (array_of array.now)) result }
{
    let pairs = pairs_in(alloc, array)?;
    let sorted = in_order(alloc, way, Part::ByValue, pairs.as_slice())?;
    let list = list_of(alloc, sorted.as_slice())?;
    Ok(list)
}

// The items of an array in order.
fn arranged(
    alloc: Global,
    way: Way,
    part: Part,
    array: &OrderMap<Value>,
) -> Result<OrderMap<Value>, CallFault>
    ensures { spec.GivesMap (spec.arranged way part (array_of array.now)) result }
{
    let pairs = pairs_in(alloc, array)?;
    let sorted = in_order(alloc, way, part, pairs.as_slice())?;
    let map = array_with(alloc, next_number(array), sorted.as_slice())?;
    Ok(map)
}

pub(crate) fn sorted_list(alloc: Global, way: Way, args: &mut [Value]) -> Result<Value, CallFault>
    ensures { spec.GivesAfter (spec.sorted_list way (datas args.old)) (datas args.old) (datas args.new) result }
{
    let array = only_array(args)?;
    let list = listed(alloc, way, array)?;
    put_first(alloc, args, list)?;
    Ok(Value::Bool(true))
}

pub(crate) fn sorted_array(
    alloc: Global,
    way: Way,
    part: Part,
    args: &mut [Value],
) -> Result<Value, CallFault>
    ensures { spec.GivesAfter (spec.sorted_array way part (datas args.old)) (datas args.old) (datas args.new) result }
{
    let array = only_array(args)?;
    let map = arranged(alloc, way, part, array)?;
    put_first(alloc, args, map)?;
    Ok(Value::Bool(true))
}
