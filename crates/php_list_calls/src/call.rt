// The library calls on lists, and their names.

ghost use Rattle.std.specs.Prelude.{◌≡◌};
ghost use Rattle.php_list_calls.specs.ListCalls as spec;

/// A library call on lists, named as in PHP.
#[derive(Clone, Copy, Debug, PartialEq, Eq)]
pub enum ListCall {
    Count,
    InArray,
    ArraySearch,
    ArrayKeys,
    ArrayValues,
    ArrayKeyExists,
    ArrayMerge,
    ArrayPush,
    ArrayPop,
    ArrayShift,
    ArrayUnshift,
    ArraySlice,
    ArrayReverse,
    ArraySum,
    ArrayFlip,
    ArrayUnique,
    Range,
    Max,
    Min,
    Sort,
    Rsort,
    Asort,
    Arsort,
    Ksort,
    Krsort,
}

fn look_named(name: &str) -> Option<ListCall>
    ensures { result ≡ spec.look_named name.now }
{
    match name {
        "count" => Some(ListCall::Count),
        "in_array" => Some(ListCall::InArray),
        "array_search" => Some(ListCall::ArraySearch),
        "array_key_exists" => Some(ListCall::ArrayKeyExists),
        _ => None,
    }
}

fn part_named(name: &str) -> Option<ListCall>
    ensures { result ≡ spec.part_named name.now }
{
    match name {
        "array_keys" => Some(ListCall::ArrayKeys),
        "array_values" => Some(ListCall::ArrayValues),
        "array_merge" => Some(ListCall::ArrayMerge),
        "array_slice" => Some(ListCall::ArraySlice),
        "array_reverse" => Some(ListCall::ArrayReverse),
        _ => None,
    }
}

fn number_named(name: &str) -> Option<ListCall>
    ensures { result ≡ spec.number_named name.now }
{
    match name {
        "array_sum" => Some(ListCall::ArraySum),
        "range" => Some(ListCall::Range),
        "max" => Some(ListCall::Max),
        "min" => Some(ListCall::Min),
        "array_flip" => Some(ListCall::ArrayFlip),
        "array_unique" => Some(ListCall::ArrayUnique),
        _ => None,
    }
}

fn end_named(name: &str) -> Option<ListCall>
    ensures { result ≡ spec.end_named name.now }
{
    match name {
        "array_push" => Some(ListCall::ArrayPush),
        "array_pop" => Some(ListCall::ArrayPop),
        "array_shift" => Some(ListCall::ArrayShift),
        "array_unshift" => Some(ListCall::ArrayUnshift),
        _ => None,
    }
}

fn order_named(name: &str) -> Option<ListCall>
    ensures { result ≡ spec.order_named name.now }
{
    match name {
        "sort" => Some(ListCall::Sort),
        "rsort" => Some(ListCall::Rsort),
        "asort" => Some(ListCall::Asort),
        "arsort" => Some(ListCall::Arsort),
        "ksort" => Some(ListCall::Ksort),
        "krsort" => Some(ListCall::Krsort),
        _ => None,
    }
}

fn or_else(a: Option<ListCall>, b: Option<ListCall>) -> Option<ListCall>
    ensures { result ≡ spec.or_else a b }
{
    match a {
        None => b,
        Some(call) => Some(call),
    }
}

/// The call of a name in ASCII lower case.
pub fn list_call_named(name: &str) -> Option<ListCall>
    ensures { result ≡ spec.call_named name.now }
{
    let call = order_named(name);
    let call = or_else(end_named(name), call);
    let call = or_else(number_named(name), call);
    let call = or_else(part_named(name), call);
    let call = or_else(look_named(name), call);
    call
}
