// Parameters with their values.

ghost use Rattle.std.specs.Prelude.{◌≡◌, OnOk};
ghost use Rattle.php_values.specs.Data.{data_of};
ghost use Rattle.php_world.specs.Naming.{Naming};
ghost use Rattle.php_world.specs.Variables as variables;
ghost use Rattle.php_world.specs.View.{vars_of};
ghost use Rattle.php_meaning.specs.Calls as calls;
ghost use Rattle.php_rest.specs.Views.{argument_named};
ghost use Rattle.php_bindings.specs.Bounds.{bound_named, bounds_named};

use php_meaning::FatalName;
use php_rest::Argument;
use php_values::Value;
use php_world::{Cell, Change, PlaceFault, Store};
use std::alloc::{AllocError, Global};

/// A parameter, by the number of its variable, with its value, or with the cell that it shares and the value that this holds.
#[derive(Drop)]
pub(crate) enum Bound {
    Holds(u32, Value),
    Shares(u32, Cell, Value),
}

/// All parameters with their values, or the fatal with which the run ends.
#[derive(Drop)]
pub(crate) enum Bounds {
    All(Vec<Bound>),
    Fails(FatalName),
}

/// The same of one parameter.
#[derive(Drop)]
pub(crate) enum OneBound {
    Bound(Bound),
    Fails(FatalName),
}

/// A parameter whose argument is there, with the value that it takes.
pub(crate) fn bound_as(variable: u32, argument: &Argument, value: Value) -> Bound
    ensures { (t : Naming) → bound_named t result ≡ calls.bound_as (t.name variable) (argument_named t argument.now) (data_of value) }
{
    match argument {
        Argument::Passed(_) => Bound::Holds(variable, value),
        Argument::Shares(cell) => Bound::Shares(variable, *cell, value),
        Argument::Named(_) => Bound::Holds(variable, value),
    }
}

// A variable holds a value.
fn assign(alloc: Global, number: u32, value: Value, store: &mut Store) -> Result<(), AllocError>
    ensures { OnOk result ((t : Naming) → vars_of t store.new ≡ calls.assigned (t.name number) (data_of value) (vars_of t store.old)) }
{
    match store.write(alloc, number as usize, &[], Change::Put(value)) {
        Ok(()) => Ok(()),
        Err(PlaceFault::Memory) => Err(AllocError),
        Err(_) => Ok(()),
    }
}

// Puts a value into a cell; past the cells nothing changes.
#[tactic(auto, using(php_world::proofs::Stores::cells_put, php_world::proofs::Stores::cells_past))]
fn set_cell(store: &mut Store, cell: Cell, value: Value)
    ensures { (t : Naming) → vars_of t store.new ≡ variables.with_value cell (data_of value) (vars_of t store.old) }
{
    match cell {
        Cell::Lasting(n) => {
            if n < store.lasting.len() {
                store.lasting[n] = value;
            }
        }
        Cell::Local(n) => {
            if n < store.locals.len() {
                store.locals[n] = value;
            }
        }
    }
}

// Gives a parameter its value.
fn bind_one(alloc: Global, bound: Bound, store: &mut Store) -> Result<(), AllocError>
    ensures { OnOk result ((t : Naming) → vars_of t store.new ≡ calls.bind_one (vars_of t store.old) (bound_named t bound)) }
{
    match bound {
        Bound::Holds(number, value) => assign(alloc, number, value, store),
        Bound::Shares(number, cell, value) => {
            store.bind(number as usize, cell)?;
            set_cell(store, cell, value);
            Ok(())
        }
    }
}

/// Gives parameters their values, in their order.
pub(crate) fn bind_all(
    alloc: Global,
    bounds: Vec<Bound>,
    store: &mut Store,
) -> Result<(), AllocError>
    ensures { OnOk result ((t : Naming) → vars_of t store.new ≡ calls.bind_all (vars_of t store.old) (bounds_named t bounds.items)) }
{
    for bound in bounds {
        bind_one(alloc, bound, store)?;
    }
    Ok(())
}
