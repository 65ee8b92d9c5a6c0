// What arguments are worth.

ghost use Rattle.std.specs.Prelude.{◌≡◌, IfOk, map};
ghost use Rattle.php_values.specs.Data.{data_of};
ghost use Rattle.php_world.specs.Naming.{Naming};
ghost use Rattle.php_world.specs.Variables as spec;
ghost use Rattle.php_world.specs.View.{vars_of};
ghost use Rattle.php_arguments.specs.Answers.{datas};
ghost use Rattle.php_meaning.specs.Calls.{argument_value, argument_values};
ghost use Rattle.php_rest.specs.Views.{argument_named, arguments_named};

use php_rest::Argument;
use php_steps::variable;
use php_values::Value;
use php_world::{Cell, Store};
use std::alloc::{AllocError, Global};

// What a cell among others holds: null past the cells.
fn item(cells: &[Value], cell: usize) -> Result<Value, AllocError>
    ensures { IfOk result (λ v. data_of v ≡ spec.item_of cell (map data_of cells.now)) }
{
    match cells.get(cell) {
        Some(value) => {
            let copy = value.clone()?;
            Ok(copy)
        }
        None => Ok(Value::Null),
    }
}

// What a cell holds.
fn cell_value(cell: Cell, store: &Store) -> Result<Value, AllocError>
    ensures { IfOk result (λ v. (t : Naming) → data_of v ≡ spec.cell_value cell (vars_of t store.now)) }
{
    match cell {
        Cell::Lasting(n) => {
            let value = item(store.lasting.as_slice(), n)?;
            Ok(value)
        }
        Cell::Local(n) => {
            let value = item(store.locals.as_slice(), n)?;
            Ok(value)
        }
    }
}

/// What an argument is worth.
pub(crate) fn value_of(argument: &Argument, store: &Store) -> Result<Value, AllocError>
    ensures { IfOk result (λ v. (t : Naming) → data_of v ≡ argument_value (vars_of t store.now) (argument_named t argument.now)) }
{
    match argument {
        Argument::Passed(value) => {
            let copy = value.clone()?;
            Ok(copy)
        }
        Argument::Shares(cell) => {
            let value = cell_value(*cell, store)?;
            Ok(value)
        }
        Argument::Named(number) => {
            let value = variable(store, *number)?;
            Ok(value)
        }
    }
}

/// What all arguments are worth, in their order.
pub(crate) fn values_of(
    alloc: Global,
    args: &[Argument],
    store: &Store,
) -> Result<Vec<Value>, AllocError>
    ensures { IfOk result (λ vs. (t : Naming) → datas vs.items ≡ argument_values (vars_of t store.now) (arguments_named t args.now)) }
{
    let mut values = Vec::new(alloc);
    'each: for argument in args {
        let value = value_of(argument, store)?;
        values.push(value)?;
    }
    Ok(values)
}
