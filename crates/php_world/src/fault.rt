// Why a place is not read, written or removed.

ghost use Rattle.std.specs.Prelude.{◌≡◌};
ghost use Rattle.php_world.specs.declared.fault.PlaceFault.TheVariants.{Memory};

use std::alloc::{AllocError, AllocFailed};

/// `Kind`, `Keys` and `Size` are the fatals `type`, `keys` and `size`: a value that is no array is written into, a text key on a
/// text, or an array or object as a key; no next key is left; an array of 100,000 entries or a text of 1 MiB would grow.
/// `ObjectAsArray`: an index of an object. `NotAnObject`: a member of a value that has none is written.
/// `Memory` may come at any time.
#[derive(Clone, Copy, Debug, PartialEq, Eq)]
pub enum PlaceFault {
    Kind,
    Keys,
    Size,
    ObjectAsArray,
    NotAnObject,
    Memory,
}

impl From<AllocError> for PlaceFault {
    ghost from_gives = { λ _ fault. fault ≡ Memory };

    fn from(_: AllocError) -> PlaceFault {
        PlaceFault::Memory
    }
}

impl<T: Drop> From<AllocFailed<T>> for PlaceFault {
    ghost from_gives = { λ _ fault. fault ≡ Memory };

    fn from(_: AllocFailed<T>) -> PlaceFault {
        PlaceFault::Memory
    }
}
