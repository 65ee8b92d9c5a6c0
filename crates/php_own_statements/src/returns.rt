// `return`.

ghost use Rattle.std.specs.Prelude.{◌≡◌, IfOk};
ghost use Rattle.std.specs.Option.{option_copied, option_map};
ghost use Rattle.php_values.specs.Data.{data_of};
ghost use Rattle.php_meaning.specs.Statements as statements;
ghost use Rattle.php_rest.specs.Views.{gives_of};
ghost use Rattle.php_statement_steps.specs.Standing.{Follows};

use php_hints::given_by;
use php_meaning::FatalName;
use php_rest::{Ending, Now, Owner, Scene};
use php_tree::decl::Hint;
use php_values::Value;
use php_world::Store;
use std::alloc::{AllocError, Global};

// What a `return` of the code that runs has to give.
fn hint_of<'a>(owner: Owner<'a>) -> Option<&'a Hint>
    ensures { option_copied result ≡ gives_of owner.entry }
{
    match owner {
        Owner::File(_) => None,
        Owner::Function(function) => function.declaration.get().result.as_ref(),
    }
}

/// A `return` with a value, or without one.
pub(crate) fn give_back<'a>(
    alloc: Global,
    value: Option<Value>,
    store: &Store,
    scene: &Scene<'a>,
) -> Result<Now<'a>, AllocError>
    ensures { IfOk result (λ now. (stack : _) → Follows store.now store.now scene.now scene.now stack stack (λ t. statements.return_with (option_map data_of value)) now) }
{
    match given_by(alloc, hint_of(scene.owner), value)? {
        Some(value) => Ok(Now::End(Ending::Returned(value))),
        None => Ok(Now::Fail(FatalName::Uncaught)),
    }
}
