// Why programs are no copies of one application.
ghost use Rattle.std.specs.Prelude.{◌≡◌};
ghost use Rattle.role_copies.specs.declared.fault.CopiesFault.TheVariants.{Memory};

use std::alloc::{AllocError, AllocFailed};

/// `Differ` comes exactly where two programs differ in their paths, or in the bytes of a static file. `Memory` may come at
/// any time.
#[derive(Clone, Copy, Debug, PartialEq, Eq)]
pub enum CopiesFault {
    Differ,
    Memory,
}

impl From<AllocError> for CopiesFault {
    ghost from_gives = { λ _ fault. fault ≡ Memory };

    fn from(_: AllocError) -> Self {
        CopiesFault::Memory
    }
}

impl<T: Drop> From<AllocFailed<T>> for CopiesFault {
    ghost from_gives = { λ _ fault. fault ≡ Memory };

    fn from(_: AllocFailed<T>) -> Self {
        CopiesFault::Memory
    }
}
