// A constant by its name.

ghost use Rattle.std.specs.Prelude.{IfOk};
ghost use Rattle.php_meaning.specs.Constants as meaning;
ghost use Rattle.php_fixed.specs.Evaluated.{Evaluates};

use php_constants::constant_value;
use php_meaning::FatalName;
use php_names::NameTable;
use php_rest::Outcome;
use php_values::Value;
use std::alloc::{AllocError, Global};

/// The value of a constant that stands on a line.
pub(crate) fn constant(
    alloc: Global,
    constants: &NameTable<Value>,
    path: &[u8],
    line: u32,
    name: &[u8],
) -> Result<Outcome, AllocError>
    ensures { IfOk result (λ o. Evaluates path.now constants.now (λ t. meaning.constant_named name.now line) o) }
{
    match constant_value(alloc, constants, path, line, name)? {
        Some(value) => Ok(Outcome::Gives(value)),
        None => Ok(Outcome::Fails(FatalName::Uncaught)),
    }
}
