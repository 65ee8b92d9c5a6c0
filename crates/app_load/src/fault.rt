//! Why an application or a copy is refused.

ghost use Rattle.std.specs.Prelude.{◌≡◌};
ghost use Rattle.app_load.specs.declared.fault.AppFault.TheVariants as app;
ghost use Rattle.app_load.specs.declared.fault.CopyFault.TheVariants as copy;

use php_lexer::LexKind;
use php_parser::ParseKind;
use sqlite_items::Items;
use std::alloc::{AllocError, AllocFailed};

/// What has a greatest number.
#[derive(Clone, Copy, Debug, PartialEq, Eq)]
pub enum LimitName {
    /// A path that is not 1 to 200 visible bytes of ASCII or spaces in segments, without `'`, `"`, `\` and `#`.
    Path,
    /// 2,000 files.
    Files,
    /// 8,388,608 bytes of PHP text in all.
    Total,
    /// 33,554,432 bytes in all other files.
    Static,
    /// 1,048,576 bytes of one PHP file.
    File,
    /// 20,000 functions with a body.
    Functions,
}

/// What is wrong in an application.
#[derive(Debug, Drop)]
pub enum AppKind {
    Lex(LexKind),
    Parse(ParseKind),
    /// The word `less_removed`, as it is written.
    ReservedWord(Items<u8>),
    /// A name that is declared twice, in lower case and without `$`.
    Twice(Items<u8>),
    BreakDepth,
    Limit(LimitName),
}

/// `At` comes exactly where an application is not accepted; the first fault counts. The file is empty and the line is 0
/// where a limit of the whole is passed. `Memory` may come at any time.
#[derive(Debug, Drop)]
pub enum AppFault {
    At {
        file: String,
        line: u32,
        kind: AppKind,
    },
    Memory,
}

/// What is wrong in a copy.
#[derive(Clone, Copy, Debug, PartialEq, Eq)]
pub enum CopyKind {
    BadFile,
    /// A word `less_removed` that is no part of a placeholder in its exact form.
    Placeholder,
}

/// `At` comes exactly where a copy is not accepted, as of an application. `Memory` may come at any time.
#[derive(Debug, Drop)]
pub enum CopyFault {
    At {
        file: String,
        line: u32,
        kind: CopyKind,
    },
    Memory,
}

impl From<AllocError> for AppFault {
    ghost from_gives = { λ _ fault. fault ≡ app.Memory };

    fn from(_: AllocError) -> Self {
        AppFault::Memory
    }
}

impl From<AllocError> for CopyFault {
    ghost from_gives = { λ _ fault. fault ≡ copy.Memory };

    fn from(_: AllocError) -> Self {
        CopyFault::Memory
    }
}
