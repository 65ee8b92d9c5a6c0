//! PHP's library calls on lists.
#![tactic(auto)]

ghost use Rattle.php_arguments.specs.Answers.{datas};
ghost use Rattle.php_list_calls.specs.ListCalls.{list_answer, GivesAfter};

mod build;
mod call;
mod ends;
mod first;
mod look;
mod numbers;
mod order;
mod pairs;
mod parts;
mod sets;
#[cfg(test)]
mod tests;

pub use call::{ListCall, list_call_named};
use numbers::Extreme;
use order::{Part, Way};
use php_arguments::CallFault;
use php_values::Value;
use std::alloc::Global;

/// The value of a library call on lists. A fault of the count of arguments comes first, then those of the arguments from
/// left to right, then the call's own. A call that changes an array changes its first argument; after any refusal but
/// `Memory` the arguments are as before.
#[tactic(auto, unfolding(crate::specs::ListCalls::list_answer))]
pub fn list_call(alloc: Global, call: ListCall, args: &mut [Value]) -> Result<Value, CallFault>
    ensures { GivesAfter (list_answer call (datas args.old)) (datas args.old) (datas args.new) result }
{
    match call {
        ListCall::Count => look::count(args),
        ListCall::InArray => look::in_array(alloc, args),
        ListCall::ArraySearch => look::array_search(alloc, args),
        ListCall::ArrayKeys => parts::array_keys(alloc, args),
        ListCall::ArrayValues => parts::array_values(alloc, args),
        ListCall::ArrayKeyExists => look::array_key_exists(alloc, args),
        ListCall::ArrayMerge => parts::array_merge(alloc, args),
        ListCall::ArrayPush => ends::array_push(alloc, args),
        ListCall::ArrayPop => ends::array_pop(alloc, args),
        ListCall::ArrayShift => ends::array_shift(alloc, args),
        ListCall::ArrayUnshift => ends::array_unshift(alloc, args),
        ListCall::ArraySlice => parts::array_slice(alloc, args),
        ListCall::ArrayReverse => parts::array_reverse(alloc, args),
        ListCall::ArraySum => numbers::array_sum(args),
        ListCall::ArrayFlip => sets::array_flip(alloc, args),
        ListCall::ArrayUnique => sets::array_unique(alloc, args),
        ListCall::Range => numbers::range_call(alloc, args),
        ListCall::Max => numbers::extreme_call(Extreme::Greatest, args),
        ListCall::Min => numbers::extreme_call(Extreme::Least, args),
        ListCall::Sort => order::sorted_list(alloc, Way::Rising, args),
        ListCall::Rsort => order::sorted_list(alloc, Way::Falling, args),
        ListCall::Asort => order::sorted_array(alloc, Way::Rising, Part::ByValue, args),
        ListCall::Arsort => order::sorted_array(alloc, Way::Falling, Part::ByValue, args),
        ListCall::Ksort => order::sorted_array(alloc, Way::Rising, Part::ByKey, args),
        ListCall::Krsort => order::sorted_array(alloc, Way::Falling, Part::ByKey, args),
    }
}
