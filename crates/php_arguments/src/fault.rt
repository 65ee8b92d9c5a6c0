// Why a library call gives no value.

ghost use Rattle.std.specs.Prelude.{◌≡◌};
ghost use Rattle.php_arguments.specs.Answers.{call_fault};
ghost use Rattle.php_arguments.specs.declared.fault.CallFault.TheVariants.{Memory};

use php_values::ValueFault;
use std::alloc::{AllocError, AllocFailed};

/// `Arity`: too few or too many arguments. `Mistyped`: an argument of a kind or with a value that the call does not take.
/// `Float`: a number outside 64 bits, or a text of float form where a number is wanted. `Sort`: things that have no
/// order. `Size`: a text above 1 MiB, or an array above 100,000 entries. `Keys`: no number key is left. `Zero` and
/// `Range`: a division by zero, and a quotient outside 64 bits. `Memory` may come at any time.
#[derive(Clone, Copy, Debug, PartialEq, Eq)]
pub enum CallFault {
    Arity,
    Mistyped,
    Float,
    Sort,
    Size,
    Keys,
    Zero,
    Range,
    Memory,
}

impl From<AllocError> for CallFault {
    ghost from_gives = { λ _ fault. fault ≡ Memory };

    fn from(_: AllocError) -> CallFault {
        CallFault::Memory
    }
}

impl<T: Drop> From<AllocFailed<T>> for CallFault {
    ghost from_gives = { λ _ fault. fault ≡ Memory };

    fn from(_: AllocFailed<T>) -> CallFault {
        CallFault::Memory
    }
}

impl From<ValueFault> for CallFault {
    ghost from_gives = { λ value fault. fault ≡ call_fault value };

    fn from(value: ValueFault) -> CallFault {
        match value {
            ValueFault::Float => CallFault::Float,
            ValueFault::Kind => CallFault::Mistyped,
            ValueFault::Size => CallFault::Size,
            ValueFault::Zero => CallFault::Zero,
            ValueFault::Memory => CallFault::Memory,
        }
    }
}
