//! Why a text has no tokens.

ghost use Rattle.std.specs.Prelude.{◌≡◌};
ghost use Rattle.php_lexer.specs.declared.fault.LexFault.TheVariants.{Memory};

use std::alloc::{AllocError, AllocFailed};

/// `At` comes exactly where the text has no token list. `Memory` may come at any time.
#[derive(Clone, Copy, Debug, PartialEq, Eq)]
pub enum LexFault {
    /// The first fault, at its place in bytes from 0.
    At { place: u32, kind: LexKind },
    Memory,
}

/// What is wrong at a place.
#[derive(Clone, Copy, Debug, PartialEq, Eq)]
pub enum LexKind {
    /// A byte that begins no token.
    BadByte,
    /// A quoted text that is not closed, told at its opening quote.
    OpenString,
    /// A comment that is not closed, told at its `/*`.
    OpenComment,
    /// A form that is left out of the language.
    Form(FormName),
}

/// The forms that are left out, in the order that decides where several fit at one byte.
#[derive(Clone, Copy, Debug, PartialEq, Eq)]
pub enum FormName {
    /// A number with a point or an exponent, or above 9,223,372,036,854,775,807.
    Float,
    /// A digit 8 or 9 after a leading 0.
    Octal,
    /// `0x` or `0b` without digits.
    Number,
    /// `<<<`
    Heredoc,
    /// A backtick.
    Backtick,
    /// `$` without a word after it, and `${` in double quotes.
    Dollar,
    /// Another index than a word, digits or a variable in `"$v[..]"`.
    Offset,
    /// `\u{` without a number up to 10FFFF and its `}`.
    Unicode,
    /// `(float)` and its kin.
    Cast,
    /// `**`
    Power,
    /// `...`
    Spread,
    /// `^ ~ << >> &= |= ^=`
    Bits,
    /// `??=`
    Coalesce,
    /// `\` outside texts.
    Namespace,
    /// A word above 100 bytes.
    Name,
    /// A double-quoted text that 200 others enclose.
    Nesting,
}

impl From<AllocError> for LexFault {
    ghost from_gives = { λ _ fault. fault ≡ Memory };

    fn from(_: AllocError) -> Self {
        LexFault::Memory
    }
}

impl<T: Drop> From<AllocFailed<T>> for LexFault {
    ghost from_gives = { λ _ fault. fault ≡ Memory };

    fn from(_: AllocFailed<T>) -> Self {
        LexFault::Memory
    }
}
