// What is written to a place once its keys and the value are there.

ghost use Rattle.std.specs.Prelude.{◌≡◌, IfOk};
ghost use Rattle.php_values.specs.Data.{data_of};
ghost use Rattle.php_world.specs.View.{path_of};
ghost use Rattle.php_meaning.specs.Course.{give};
ghost use Rattle.php_meaning.specs.Stores as stores;
ghost use Rattle.php_place_steps.specs.Alone.{WritesAlone, chosen};

use php_rest::{Now, operand_refused, place_refused, value_refused};
use php_tree::expr::{AssignOp, StepOp};
use php_values::{ArithOp, Value, arith};
use php_world::{Change, Direction, Reading, Step, Store, stepped};
use std::alloc::{AllocError, Global};

// A place holds a value, and another one is given.
fn store_value<'a>(
    alloc: Global,
    number: u32,
    path: &[Step],
    value: Value,
    given: Value,
    store: &mut Store,
) -> Result<Now<'a>, AllocError>
    ensures { IfOk result (WritesAlone store.old store.new (λ t. stores.stored (t.name number) (path_of path.now) (data_of value) (give (data_of given)))) }
{
    match store.write(alloc, number as usize, path, Change::Put(value)) {
        Ok(()) => Ok(Now::Give(given)),
        Err(fault) => Ok(Now::Fail(place_refused(fault)?)),
    }
}

// `+=` and its kin.
fn combined<'a>(
    alloc: Global,
    number: u32,
    path: &[Step],
    op: ArithOp,
    value: &Value,
    store: &mut Store,
) -> Result<Now<'a>, AllocError>
    ensures { IfOk result (WritesAlone store.old store.new (λ t. stores.combined (t.name number) (path_of path.now) op (data_of value.now))) }
{
    let old = match store.read(alloc, Reading::Plain, number as usize, path) {
        Ok(old) => old,
        Err(fault) => return Ok(Now::Fail(place_refused(fault)?)),
    };
    let new = match arith(alloc, op, &old, value) {
        Ok(new) => new,
        Err(fault) => return Ok(Now::Fail(operand_refused(op, fault)?)),
    };
    drop(old);
    let given = new.clone()?;
    let now = store_value(alloc, number, path, new, given, store)?;
    Ok(now)
}

/// `=` and its kin: the value after it is given.
pub fn assign<'a>(
    alloc: Global,
    number: u32,
    path: &[Step],
    op: AssignOp,
    value: Value,
    store: &mut Store,
) -> Result<Now<'a>, AllocError>
    ensures { IfOk result (WritesAlone store.old store.new (λ t. stores.assign_value (t.name number) (path_of path.now) op (data_of value))) }
{
    match op {
        AssignOp::Set => {
            let given = value.clone()?;
            let now = store_value(alloc, number, path, value, given, store)?;
            Ok(now)
        }
        AssignOp::Add => combined(alloc, number, path, ArithOp::Add, &value, store),
        AssignOp::Sub => combined(alloc, number, path, ArithOp::Subtract, &value, store),
        AssignOp::Mul => combined(alloc, number, path, ArithOp::Multiply, &value, store),
        AssignOp::Div => combined(alloc, number, path, ArithOp::Divide, &value, store),
        AssignOp::Join => combined(alloc, number, path, ArithOp::Join, &value, store),
        AssignOp::Rem => combined(alloc, number, path, ArithOp::Remainder, &value, store),
    }
}

// `++` or `--`: the value after it is given where `before`, else the one before it.
fn step_one<'a>(
    alloc: Global,
    number: u32,
    path: &[Step],
    way: Direction,
    before: bool,
    store: &mut Store,
) -> Result<Now<'a>, AllocError>
    ensures { IfOk result (WritesAlone store.old store.new (λ t. stores.step_by_one (t.name number) (path_of path.now) way (chosen before))) }
{
    let old = match store.read(alloc, Reading::Plain, number as usize, path) {
        Ok(old) => old,
        Err(fault) => return Ok(Now::Fail(place_refused(fault)?)),
    };
    let new = match stepped(way, &old) {
        Ok(new) => new,
        Err(fault) => return Ok(Now::Fail(value_refused(fault)?)),
    };
    if before {
        let given = new.clone()?;
        let now = store_value(alloc, number, path, new, given, store)?;
        return Ok(now);
    }
    let now = store_value(alloc, number, path, new, old, store)?;
    Ok(now)
}

/// `++` and `--`, before and after their place.
pub fn step_place<'a>(
    alloc: Global,
    number: u32,
    path: &[Step],
    op: StepOp,
    store: &mut Store,
) -> Result<Now<'a>, AllocError>
    ensures { IfOk result (WritesAlone store.old store.new (λ t. stores.step_value (t.name number) (path_of path.now) op)) }
{
    match op {
        StepOp::IncrementBefore => step_one(alloc, number, path, Direction::Up, true, store),
        StepOp::DecrementBefore => step_one(alloc, number, path, Direction::Down, true, store),
        StepOp::IncrementAfter => step_one(alloc, number, path, Direction::Up, false, store),
        StepOp::DecrementAfter => step_one(alloc, number, path, Direction::Down, false, store),
    }
}
