// Declarations of functions.

ghost use Rattle.std.specs.Prelude.{IfOk};
ghost use Rattle.php_world.specs.Naming.{Naming};
ghost use Rattle.php_callees.specs.Names.{Declares};

use crate::callee::is_taken;
use php_names::LowerName;
use php_tables::{Function, Functions};
use std::alloc::{AllocError, Global};

/// Declares a function behind the others, unless its name calls something already. Answers whether it was declared.
pub fn declare<'a>(
    alloc: Global,
    functions: &mut Functions<'a>,
    function: Function<'a>,
) -> Result<bool, AllocError>
    ensures { IfOk result (λ new. (t : Naming) → Declares t functions.old functions.new function.entry new) }
{
    let mut name = LowerName::new(alloc);
    name.set(function.declaration.get().name.text.as_slice())?;
    if is_taken(functions, name.as_slice()) {
        return Ok(false);
    }
    functions.add(alloc, function)?;
    Ok(true)
}
