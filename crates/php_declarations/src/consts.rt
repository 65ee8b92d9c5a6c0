// `const`.

ghost use Rattle.std.specs.Prelude.{◌≡◌, ◌∷◌, List, map, IfOk, OnOk};
ghost use Rattle.php_tree.specs.Expressions.{Expression};
ghost use Rattle.php_tree.specs.Renamed.{renamed, renamed_constants};
ghost use Rattle.php_tree.specs.ExpressionOf.{expression_of};
ghost use Rattle.php_tree.specs.StatementOf as tree;
ghost use Rattle.php_tree.specs.declared.name.ConstName.{ConstName};
ghost use Rattle.php_values.specs.Data.{data_of};
ghost use Rattle.php_world.specs.Naming.{Naming};
ghost use Rattle.php_constants.specs.Named.{Knows, constants_of};
ghost use Rattle.php_meaning.specs.Course.{Then, Normal, hand};
ghost use Rattle.php_meaning.specs.Statements as statements;
ghost use Rattle.php_meaning.specs.World.{World, Name};
ghost use Rattle.php_declarations.specs.Ends.{unless_fatal, with_constants};

use php_constants::constant_value;
use php_fixed::fixed;
use php_meaning::FatalName;
use php_names::NameTable;
use php_rest::Outcome;
use php_tree::stmt::ConstDecl;
use php_values::Value;
use std::alloc::{AllocError, Global};

// A constant that is there stays as it is.
fn add_constant(
    alloc: Global,
    name: &[u8],
    value: Value,
    path: &[u8],
    constants: &mut NameTable<Value>,
) -> Result<(), AllocError>
    ensures { OnOk result ((w : World) → Knows path.now constants.old w → with_constants (constants_of constants.new) w ≡ statements.new_constant name.now (data_of value) w) }
{
    if constant_value(alloc, constants, path, 0, name)?.is_some() {
        return Ok(());
    }
    if constants.get(name).is_some() {
        return Ok(());
    }
    constants.add(alloc, name, value)?;
    Ok(())
}

// One constant, and the fatal of one that has no value.
fn add_next(
    alloc: Global,
    constant: &ConstDecl,
    path: &[u8],
    constants: &mut NameTable<Value>,
) -> Result<Option<FatalName>, AllocError>
    ensures { IfOk result (λ o. (t : Naming) (more : List (ConstName × Expression Name)) (w : World) (k : Then) → Knows path.now constants.old w →
        unless_fatal o (statements.constants_of more) (with_constants (constants_of constants.new) w) k ≡ statements.constants_of ((constant.now.name, renamed t.name (expression_of constant.now.value)) ∷ more) w k) }
{
    match fixed(alloc, constants, path, constant.value.get())? {
        Outcome::Gives(value) => {
            let name = constant.name.text.as_slice();
            add_constant(alloc, name, value, path, constants)?;
            Ok(None)
        }
        Outcome::Fails(why) => Ok(Some(why)),
    }
}

/// Constants in their order. Answers the fatal of the first one that has no value.
pub(crate) fn add_constants(
    alloc: Global,
    declared: &[ConstDecl],
    path: &[u8],
    constants: &mut NameTable<Value>,
) -> Result<Option<FatalName>, AllocError>
    ensures { IfOk result (λ o. (t : Naming) (w : World) (k : Then) → Knows path.now constants.old w →
        unless_fatal o (hand Normal) (with_constants (constants_of constants.new) w) k ≡ statements.constants_of (renamed_constants t.name (map tree.constant_of declared.now)) w k) }
{
    for constant in declared {
        if let Some(why) = add_next(alloc, constant, path, constants)? {
            return Ok(Some(why));
        }
    }
    Ok(None)
}
