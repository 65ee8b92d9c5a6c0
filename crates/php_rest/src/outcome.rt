// What an operation on values gives.

ghost use Rattle.std.specs.Prelude.{◌≡◌, ◌≢◌, IfOk, OnOk};
ghost use Rattle.php_values.specs.declared.fault.ValueFault.TheVariants as value;
ghost use Rattle.php_world.specs.declared.fault.PlaceFault.TheVariants as place;
ghost use Rattle.php_meaning.specs.Refusals as meaning;
ghost use Rattle.php_meaning.specs.Operators as operators;
ghost use Rattle.php_rest.specs.Outcomes.{Answers, fails};

use php_meaning::FatalName;
use php_values::{ArithOp, Value, ValueFault};
use php_world::PlaceFault;
use std::alloc::AllocError;

/// A value, or the fatal with which the run ends at the innermost statement. What the engine throws is `Uncaught` as long
/// as nothing can catch it.
#[derive(Drop)]
pub enum Outcome {
    Gives(Value),
    Fails(FatalName),
}

/// The fatal of a conversion or comparison that was refused.
pub fn value_refused(fault: ValueFault) -> Result<FatalName, AllocError>
    ensures fault_is { OnOk result (fault ≢ value.Memory) }
    ensures law { IfOk result (λ why. meaning.value_refused fault ≡ fails why) }
{
    match fault {
        ValueFault::Float => Ok(FatalName::Float),
        ValueFault::Kind => Ok(FatalName::Mistyped),
        ValueFault::Size => Ok(FatalName::Size),
        ValueFault::Zero => Ok(FatalName::Uncaught),
        ValueFault::Memory => Err(AllocError),
    }
}

// The fatal of arithmetic on numbers and arrays that was refused.
fn number_refused(fault: ValueFault) -> Result<FatalName, AllocError>
    ensures fault_is { OnOk result (fault ≢ value.Memory) }
    ensures law { IfOk result (λ why. meaning.operand_refused fault ≡ fails why) }
{
    match fault {
        ValueFault::Float => Ok(FatalName::Float),
        ValueFault::Kind => Ok(FatalName::Uncaught),
        ValueFault::Size => Ok(FatalName::Size),
        ValueFault::Zero => Ok(FatalName::Uncaught),
        ValueFault::Memory => Err(AllocError),
    }
}

/// The fatal of an operation that was refused.
pub fn operand_refused(op: ArithOp, fault: ValueFault) -> Result<FatalName, AllocError>
    ensures fault_is { OnOk result (fault ≢ value.Memory) }
    ensures law { IfOk result (λ why. operators.refused_by op fault ≡ fails why) }
{
    match op {
        ArithOp::Add => number_refused(fault),
        ArithOp::Subtract => number_refused(fault),
        ArithOp::Multiply => number_refused(fault),
        ArithOp::Divide => number_refused(fault),
        ArithOp::Remainder => number_refused(fault),
        ArithOp::Join => text_refused(fault),
    }
}

/// The fatal of a value that has no text.
pub fn text_refused(fault: ValueFault) -> Result<FatalName, AllocError>
    ensures fault_is { OnOk result (fault ≢ value.Memory) }
    ensures law { IfOk result (λ why. meaning.text_refused fault ≡ fails why) }
{
    match fault {
        ValueFault::Float => Ok(FatalName::Float),
        ValueFault::Kind => Ok(FatalName::Uncaught),
        ValueFault::Size => Ok(FatalName::Size),
        ValueFault::Zero => Ok(FatalName::Mistyped),
        ValueFault::Memory => Err(AllocError),
    }
}

/// The fatal of a place that is not read or written.
pub fn place_refused(fault: PlaceFault) -> Result<FatalName, AllocError>
    ensures fault_is { OnOk result (fault ≢ place.Memory) }
    ensures law { IfOk result (λ why. meaning.place_refused fault ≡ fails why) }
{
    match fault {
        PlaceFault::Kind => Ok(FatalName::Mistyped),
        PlaceFault::Keys => Ok(FatalName::Keys),
        PlaceFault::Size => Ok(FatalName::Size),
        PlaceFault::ObjectAsArray => Ok(FatalName::Uncaught),
        PlaceFault::NotAnObject => Ok(FatalName::Uncaught),
        PlaceFault::Memory => Err(AllocError),
    }
}
