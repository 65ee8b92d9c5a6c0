// Why roles are refused.

ghost use Rattle.std.specs.Prelude.{◌≡◌};
ghost use Rattle.role_routing.specs.declared.fault.RolesFault.TheVariants.{Memory};

use std::alloc::{AllocError, AllocFailed};

/// Why a file of roles, or its keep lists, are refused. `BadForm` carries the key, or `length` where the file is longer
/// than 1 MiB; `UnknownRole` and `Twice` the role; `UnknownEntry` the text of the keep list. `Memory` may come at any time.
#[derive(Debug, PartialEq, Eq, Drop)]
pub enum RolesFault {
    BadToml,
    NoGuest,
    UnknownRole(String),
    Twice(String),
    BadForm(String),
    UnknownEntry(String),
    Memory,
}

impl From<AllocError> for RolesFault {
    ghost from_gives = { λ _ fault. fault ≡ Memory };

    fn from(_: AllocError) -> Self {
        RolesFault::Memory
    }
}

impl<T: Drop> From<AllocFailed<T>> for RolesFault {
    ghost from_gives = { λ _ fault. fault ≡ Memory };

    fn from(_: AllocFailed<T>) -> Self {
        RolesFault::Memory
    }
}
