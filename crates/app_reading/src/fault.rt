//! Why the texts of an application are not read.

ghost use Rattle.std.specs.Prelude.{◌≡◌};
ghost use Rattle.app_reading.specs.declared.fault.TextsFault.TheVariants.{ReadFault, Memory};

use app_load::LimitName;
use less_outside::FolderFault;
use std::alloc::{AllocError, AllocFailed};

/// `Limit` comes exactly where the files pass a limit of the whole; the first one counts. `ReadFault` comes only where a list or a
/// read of the folder failed. `Memory` may come at any time.
#[derive(Clone, Copy, Debug, PartialEq, Eq)]
pub enum TextsFault {
    Limit(LimitName),
    ReadFault,
    Memory,
}

impl From<FolderFault> for TextsFault {
    ghost use Rattle.app_reading.specs.Reading.{fault_of};

    ghost from_gives = { λ given fault. fault ≡ fault_of given };

    fn from(fault: FolderFault) -> Self {
        match fault {
            FolderFault::Failed => TextsFault::ReadFault,
            FolderFault::Memory => TextsFault::Memory,
        }
    }
}

impl From<AllocError> for TextsFault {
    ghost from_gives = { λ _ fault. fault ≡ Memory };

    fn from(_: AllocError) -> Self {
        TextsFault::Memory
    }
}

impl<T: Drop> From<AllocFailed<T>> for TextsFault {
    ghost from_gives = { λ _ fault. fault ≡ Memory };

    fn from(_: AllocFailed<T>) -> Self {
        TextsFault::Memory
    }
}
