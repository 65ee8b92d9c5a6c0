// `foreach`.

ghost use Rattle.std.specs.Prelude.{◌≡◌, ◌<◌, length, IfOk, OnOk};
ghost use Rattle.order_map.specs.declared.key.Key.{Key};
ghost use Rattle.php_tree.specs.Renamed.{renamed_var};
ghost use Rattle.php_values.specs.Data.{data_of};
ghost use Rattle.php_world.specs.Naming.{Naming};
ghost use Rattle.php_world.specs.View.{vars_of};
ghost use Rattle.php_meaning.specs.World.{World, with_vars};
ghost use Rattle.php_meaning.specs.Calls.{assigned};
ghost use Rattle.php_meaning.specs.Statements as statements;
ghost use Rattle.php_rest.specs.Laws.{Steps};
ghost use Rattle.php_rest.specs.Pairs.{pairs_left};
ghost use Rattle.php_rest.specs.Rest.{each_data, each_left};
ghost use Rattle.php_statement_steps.specs.Standing.{WritesAfterTick};

use backward_list::Backward;
use order_map::Key;
use php_meaning::FatalName;
use php_rest::{Each, Ending, Frame, Now, StmtFrame, Tail, Turns};
use php_values::Value;
use php_world::{Change, PlaceFault, Store};
use std::alloc::{AllocError, Global};

/// What a `foreach` does with what it goes over.
pub(crate) fn each_of<'a>(of: Each<'a>, value: Value) -> Now<'a>
    ensures { (stack : _) → Steps stack stack (λ t. each_data t of.entry (data_of value)) result }
{
    match value {
        Value::List(array) => Now::Each(of, Turns::new(array)),
        Value::Object(_) => Now::Fail(FatalName::Mistyped),
        Value::Null => Now::End(Ending::Normal),
        Value::Bool(_) => Now::End(Ending::Normal),
        Value::Int(_) => Now::End(Ending::Normal),
        Value::Bytes(_) => Now::End(Ending::Normal),
    }
}

// A variable holds a value.
fn set(alloc: Global, number: u32, value: Value, store: &mut Store) -> Result<(), AllocError>
    ensures { OnOk result ((t : Naming) → vars_of t store.new ≡ assigned (t.name number) (data_of value) (vars_of t store.old)) }
{
    match store.write(alloc, number as usize, &[], Change::Put(value)) {
        Ok(()) => Ok(()),
        Err(PlaceFault::Memory) => Err(AllocError),
        Err(_) => Ok(()),
    }
}

// A key as a value.
fn key_value(key: &Key) -> Result<Value, AllocError>
    ensures { IfOk result (λ value. data_of value ≡ statements.key_of_pair key.now) }
{
    match key {
        Key::Int(n) => Ok(Value::Int(*n)),
        Key::Text(text) => Ok(Value::Bytes(text.clone()?)),
    }
}

// A key is held by its variable, where a `foreach` has one.
fn set_key(
    alloc: Global,
    number: Option<u32>,
    key: Value,
    store: &mut Store,
) -> Result<(), AllocError>
    ensures { OnOk result ((t : Naming) (w : World) (i : Key) → data_of key ≡ statements.key_of_pair i → with_vars (vars_of t store.new) w ≡ statements.key_assigned (renamed_var t.name number) i (with_vars (vars_of t store.old) w)) }
{
    match number {
        Some(number) => set(alloc, number, key, store),
        None => Ok(()),
    }
}

/// A turn of a `foreach` that has one left, after its tick.
pub fn begin_each<'a>(
    alloc: Global,
    of: Each<'a>,
    turns: Turns,
    store: &mut Store,
    stack: &mut Backward<Frame<'a>>,
) -> Result<Now<'a>, AllocError>
    requires { 0 < length (pairs_left turns) }
    ensures { IfOk result (WritesAfterTick store.old store.new stack.old stack.new (λ t. each_left t of.entry (pairs_left turns))) }
{
    let Some((key, item)) = turns.pair() else {
        return Ok(Now::End(Ending::Normal));
    };
    let item = item.clone()?;
    let key = key_value(key)?;
    let behind = turns.behind();
    set(alloc, of.element, item, store)?;
    set_key(alloc, of.key, key, store)?;
    stack.push(Frame::OfStmt(StmtFrame::EachBody(of, behind)))?;
    Ok(Now::Block(Tail::new(of.body)))
}
