// Values of arguments.

ghost use Rattle.std.specs.Prelude.{◌≡◌, IfOk, map};
ghost use Rattle.php_values.specs.Data.{data_of};
ghost use Rattle.php_world.specs.Naming.{Naming};
ghost use Rattle.php_world.specs.Variables as variables;
ghost use Rattle.php_world.specs.View.{vars_of};
ghost use Rattle.php_meaning.specs.Calls as calls;
ghost use Rattle.php_rest.specs.Views.{argument_named};

use php_rest::Argument;
use php_steps::variable;
use php_values::{Value, copy_value};
use php_world::{Cell, Store};
use std::alloc::AllocError;

// What a cell holds, by its number; null past the cells.
#[tactic(auto, using(php_world::proofs::Stores::item_there, php_world::proofs::Stores::item_past))]
fn item(cells: &[Value], cell: usize) -> Result<Value, AllocError>
    ensures { IfOk result (λ v. data_of v ≡ variables.item_of cell (map data_of cells.now)) }
{
    if cell < cells.len() {
        let value = copy_value(&cells[cell])?;
        Ok(value)
    } else {
        Ok(Value::Null)
    }
}

// What a cell holds.
fn cell_value(store: &Store, cell: Cell) -> Result<Value, AllocError>
    ensures { IfOk result (λ v. (t : Naming) → data_of v ≡ variables.cell_value cell (vars_of t store.now)) }
{
    match cell {
        Cell::Lasting(n) => item(store.lasting.as_slice(), n),
        Cell::Local(n) => item(store.locals.as_slice(), n),
    }
}

/// What an argument's value is. Texts and arrays are shared.
pub(crate) fn argument_value(argument: &Argument, store: &Store) -> Result<Value, AllocError>
    ensures { IfOk result (λ v. (t : Naming) → data_of v ≡ calls.argument_value (vars_of t store.now) (argument_named t argument.now)) }
{
    match argument {
        Argument::Passed(value) => copy_value(value),
        Argument::Shares(cell) => cell_value(store, *cell),
        Argument::Named(number) => variable(store, *number),
    }
}
