//! Why tokens have no tree.

ghost use Rattle.std.specs.Prelude.{◌≡◌};
ghost use Rattle.php_parser.specs.declared.fault.ParseFault.TheVariants.{Memory};

use sqlite_items::Items;
use std::alloc::{AllocError, AllocFailed};

/// A word of the language that this profile leaves out, in lower case.
#[derive(Debug, Drop)]
pub struct LeftOutName {
    pub text: Items<u8>,
}

/// What is wrong at a token.
#[derive(Debug, Drop)]
pub enum ParseKind {
    /// No file goes on with it.
    Unexpected,
    /// No file goes on with it, and it is a word or a hint that is left out of the language.
    LeftOut(LeftOutName),
    /// Files go on with it, but each is more than 200 nodes deep here.
    Depth,
}

/// `At` comes exactly where the tokens have no tree of at most 200 levels: the place, in bytes from 0, of the first token
/// that is bad or too deep. `Memory` may come at any time.
#[derive(Debug, Drop)]
pub enum ParseFault {
    At { place: u32, kind: ParseKind },
    Memory,
}

impl From<AllocError> for ParseFault {
    ghost from_gives = { λ _ fault. fault ≡ Memory };

    fn from(_: AllocError) -> Self {
        ParseFault::Memory
    }
}

impl<T: Drop> From<AllocFailed<T>> for ParseFault {
    ghost from_gives = { λ _ fault. fault ≡ Memory };

    fn from(_: AllocFailed<T>) -> Self {
        ParseFault::Memory
    }
}
