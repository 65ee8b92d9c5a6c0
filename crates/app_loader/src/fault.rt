//! Why files are refused.

ghost use Rattle.std.specs.Prelude.{◌≡◌};
ghost use Rattle.app_loader.specs.declared.fault.LoadFault.TheVariants.{Memory};

use app_load::AppKind;
use std::alloc::{AllocError, AllocFailed};

/// Why an application or a copy is refused. The file is empty and the line is 0 where a limit of the whole is passed.
#[derive(Debug, Drop)]
pub enum LoadFault {
    At {
        file: String,
        line: u32,
        kind: AppKind,
    },
    /// In a copy, a word `less_removed` that is no part of a placeholder.
    Stray {
        file: String,
        line: u32,
    },
    Memory,
}

impl From<AllocError> for LoadFault {
    ghost from_gives = { λ _ fault. fault ≡ Memory };

    fn from(_: AllocError) -> Self {
        LoadFault::Memory
    }
}

impl<T: Drop> From<AllocFailed<T>> for LoadFault {
    ghost from_gives = { λ _ fault. fault ≡ Memory };

    fn from(_: AllocFailed<T>) -> Self {
        LoadFault::Memory
    }
}
