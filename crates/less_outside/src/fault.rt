// Why a call to the outside gave no answer.
ghost use Rattle.std.specs.Prelude.{◌≡◌};
ghost use Rattle.less_outside.specs.declared.fault.FolderFault.TheVariants.{Memory};

use std::alloc::{AllocError, AllocFailed};

/// What a call that takes no memory answers in place of its result.
#[derive(Clone, Copy, Debug, PartialEq, Eq)]
pub enum OutsideFault {
    Failed,
}

/// What a call of a folder answers in place of its result. `Memory` may come at any time.
#[derive(Clone, Copy, Debug, PartialEq, Eq)]
pub enum FolderFault {
    Failed,
    Memory,
}

impl From<AllocError> for FolderFault {
    ghost from_gives = { λ _ fault. fault ≡ Memory };

    fn from(_: AllocError) -> Self {
        FolderFault::Memory
    }
}

impl<T: Drop> From<AllocFailed<T>> for FolderFault {
    ghost from_gives = { λ _ fault. fault ≡ Memory };

    fn from(_: AllocFailed<T>) -> Self {
        FolderFault::Memory
    }
}
