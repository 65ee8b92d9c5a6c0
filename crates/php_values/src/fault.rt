// Why a value call gives no value.

ghost use Rattle.std.specs.Prelude.{◌≡◌};
ghost use Rattle.php_values.specs.declared.fault.ValueFault.TheVariants.{Memory};

use std::alloc::{AllocError, AllocFailed};

/// `Float`: the result would be no whole number of 64 bits. `Kind`: a value of this kind is not taken here.
/// `Size`: a text above 1 MiB, or an array above 100,000 entries. `Zero`: the remainder by zero.
/// `Memory` may come at any time.
#[derive(Clone, Copy, Debug, PartialEq, Eq)]
pub enum ValueFault {
    Float,
    Kind,
    Size,
    Zero,
    Memory,
}

impl From<AllocError> for ValueFault {
    ghost from_gives = { λ _ fault. fault ≡ Memory };

    fn from(_: AllocError) -> ValueFault {
        ValueFault::Memory
    }
}

impl<T: Drop> From<AllocFailed<T>> for ValueFault {
    ghost from_gives = { λ _ fault. fault ≡ Memory };

    fn from(_: AllocFailed<T>) -> ValueFault {
        ValueFault::Memory
    }
}
