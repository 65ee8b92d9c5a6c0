// The pairs of an array, lent.

ghost use Rattle.std.specs.Prelude.{◌≡◌, List, map, IfOk};
ghost use Rattle.php_values.specs.Data.{array_of};
ghost use Rattle.php_list_calls.specs.Items.{items};
ghost use Rattle.php_list_calls.specs.Pairs.{lent_items};

use order_map::{Key, OrderMap};
use php_values::{Value, Walk};
use std::alloc::{AllocError, Global};

/// A pair of an array, lent.
#[derive(Clone, Copy, Drop)]
pub(crate) struct Pair<'a> {
    pub(crate) key: &'a Key,
    pub(crate) value: &'a Value,
}

// The pairs of an array in their order.
pub(crate) fn pairs_in<'a>(
    alloc: Global,
    array: &'a OrderMap<Value>,
) -> Result<Vec<Pair<'a>>, AllocError>
    ensures { IfOk result (λ v. lent_items v.items ≡ items (array_of array.now)) }
{
    let mut pairs = Vec::with_capacity(alloc, array.len())?;
    let mut walk = Walk::new(array);
    while let Some((key, value)) = walk.next() {
        pairs.push(Pair { key, value })?;
    }
    Ok(pairs)
}
