// Why a request was not read.
ghost use Rattle.std.specs.Prelude.{◌≡◌};
ghost use Rattle.request_map.specs.declared.fault.RequestFault.TheVariants.{Memory, Link};

use less_outside::OutsideFault;
use std::alloc::{AllocError, AllocFailed};

/// Why a request was not read. `Link` comes only where the count of the link's reads rose; `Memory` may come at any time.
#[derive(Clone, Copy, Debug, PartialEq, Eq)]
pub enum RequestFault {
    /// There is no head within the limits, or the host, the length, the body or the target is not as it must be.
    BadRequest,
    /// A POST tells no length.
    NoLength,
    /// The body is longer than 1 MiB.
    TooLarge,
    /// Another method than GET, HEAD and POST, or a transfer coding.
    NotImplemented,
    /// A read of the link failed.
    Link,
    Memory,
}

impl From<AllocError> for RequestFault {
    ghost from_gives = { λ _ fault. fault ≡ Memory };

    fn from(_: AllocError) -> Self {
        RequestFault::Memory
    }
}

impl<T: Drop> From<AllocFailed<T>> for RequestFault {
    ghost from_gives = { λ _ fault. fault ≡ Memory };

    fn from(_: AllocFailed<T>) -> Self {
        RequestFault::Memory
    }
}

impl From<OutsideFault> for RequestFault {
    ghost from_gives = { λ _ fault. fault ≡ Link };

    fn from(_: OutsideFault) -> Self {
        RequestFault::Link
    }
}
