//! Why reading stops.

ghost use Rattle.std.specs.Prelude.{◌≡◌};
ghost use Rattle.php_reading.specs.declared.stop.Stop.TheVariants.{Memory};

use php_grammar::token::Fault;
use std::alloc::{AllocError, AllocFailed};

/// Why a part is not read.
#[derive(Clone, Copy)]
pub enum Stop {
    /// The next token is bad, or it stands too deep.
    At(Fault),
    /// Want of memory.
    Memory,
}

impl From<AllocError> for Stop {
    ghost from_gives = { λ _ stop. stop ≡ Memory };

    fn from(_: AllocError) -> Self {
        Stop::Memory
    }
}

impl<T: Drop> From<AllocFailed<T>> for Stop {
    ghost from_gives = { λ _ stop. stop ≡ Memory };

    fn from(_: AllocFailed<T>) -> Self {
        Self::Memory
    }
}
