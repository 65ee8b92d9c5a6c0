// What a call of the library comes to.

ghost use Rattle.std.specs.Prelude.{◌≡◌, ◌≢◌, IfOk, OnOk};
ghost use Rattle.php_arguments.specs.declared.fault.CallFault.TheVariants as call;
ghost use Rattle.php_meaning.specs.Refusals as meaning;
ghost use Rattle.php_values.specs.Data.{truth};
ghost use Rattle.php_world.specs.Naming.{Naming};
ghost use Rattle.php_meaning.specs.Course.{give};
ghost use Rattle.php_rest.specs.Outcomes.{fails};
ghost use Rattle.php_rest.specs.Rest.{next_of};

use php_arguments::CallFault;
use php_meaning::FatalName;
use php_rest::Now;
use php_values::Value;
use std::alloc::AllocError;

/// The fatal of a call that was refused.
pub(crate) fn call_refused(fault: CallFault) -> Result<FatalName, AllocError>
    ensures fault_is { OnOk result (fault ≢ call.Memory) }
    ensures law { IfOk result (λ why. meaning.call_refused fault ≡ fails why) }
{
    match fault {
        CallFault::Arity => Ok(FatalName::Arity),
        CallFault::Mistyped => Ok(FatalName::Mistyped),
        CallFault::Float => Ok(FatalName::Float),
        CallFault::Sort => Ok(FatalName::Sort),
        CallFault::Size => Ok(FatalName::Size),
        CallFault::Keys => Ok(FatalName::Keys),
        CallFault::Zero => Ok(FatalName::Uncaught),
        CallFault::Range => Ok(FatalName::Uncaught),
        CallFault::Memory => Err(AllocError),
    }
}

/// A truth value is given.
pub(crate) fn give_truth<'a>(value: bool) -> Now<'a>
    ensures { (t : Naming) → next_of t result ≡ give (truth value) }
{
    Now::Give(Value::Bool(value))
}
