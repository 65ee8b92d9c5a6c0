//! Sorting that keeps the order of what ties, said by a definition that computes.
#![tactic(auto)]

ghost use Rattle.std.specs.Prelude.{◌≡◌, OnOk, OnErr};
ghost use Rattle.std.specs.Ordering.{is_lt};
ghost use Rattle.stable_sort.specs.Sorting.{sort_by};

#[cfg(test)]
mod tests;

use std::alloc::AllocError;

/// A thing with what it is sorted by.
#[derive(Clone, Copy, Debug, Drop)]
pub struct Ranked<K, T> {
    pub rank: K,
    pub thing: T,
}

/// Sorts by rank, the least first. What ties keeps its order. After an error nothing has changed.
pub fn sort_up<K: Ord, T>(things: &mut Vec<Ranked<K, T>>) -> Result<(), AllocError>
    ensures ok { OnOk result (things.new.items ≡ sort_by (λ x y. is_lt (K.cmp x.rank y.rank)) things.old.items) }
    ensures err { OnErr result (things.new.items ≡ things.old.items) }
{
    things.sort_by(|a, b| a.rank.cmp(&b.rank))
}

/// Sorts by rank, the greatest first. What ties keeps its order. After an error nothing has changed.
pub fn sort_down<K: Ord, T>(things: &mut Vec<Ranked<K, T>>) -> Result<(), AllocError>
    ensures ok { OnOk result (things.new.items ≡ sort_by (λ x y. is_lt (K.cmp y.rank x.rank)) things.old.items) }
    ensures err { OnErr result (things.new.items ≡ things.old.items) }
{
    things.sort_by(|a, b| b.rank.cmp(&a.rank))
}
