// Why a class is not declared, or a member not found.

use std::alloc::{AllocError, AllocFailed};

/// `Memory` may come at any time where memory is taken.
#[derive(Clone, Copy, Debug, PartialEq, Eq)]
pub enum ClassFault {
    /// No ancestor declares the name; of a declaration, no class has the name of the parent or of an interface.
    Unknown,
    /// A class that is not abstract lacks a body.
    Abstract,
    /// The first declaration is not visible from where it is named.
    Hidden,
    /// The class's name is taken, or a member is declared again that may not be.
    Redeclared,
    Memory,
}

impl From<AllocError> for ClassFault {
    ghost use Rattle.std.specs.Prelude.{◌≡◌};
    ghost use Rattle.php_classes.specs.declared.fault.ClassFault.TheVariants.{Memory};

    ghost from_gives = { λ _ fault. fault ≡ Memory };

    fn from(_: AllocError) -> Self {
        ClassFault::Memory
    }
}

impl<T: Drop> From<AllocFailed<T>> for ClassFault {
    ghost use Rattle.std.specs.Prelude.{◌≡◌};
    ghost use Rattle.php_classes.specs.declared.fault.ClassFault.TheVariants.{Memory};

    ghost from_gives = { λ _ fault. fault ≡ Memory };

    fn from(_: AllocFailed<T>) -> Self {
        ClassFault::Memory
    }
}
