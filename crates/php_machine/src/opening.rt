// How a run begins.

ghost use Rattle.std.specs.Prelude.{◌≡◌, IfOk, OnOk};
ghost use Rattle.php_values.specs.Data.{data_of};
ghost use Rattle.php_world.specs.Naming.{Naming};
ghost use Rattle.php_world.specs.View.{vars_of};
ghost use Rattle.php_meaning.specs.Calls.{assigned};
ghost use Rattle.php_meaning.specs.Run.{Look};
ghost use Rattle.php_meaning.specs.RunResult.{result_of};
ghost use Rattle.php_meaning.specs.Trace.{trace_by};
ghost use Rattle.php_rest.specs.declared.now.Now.TheVariants as now;
ghost use Rattle.php_rest.specs.declared.owner.Owner.TheVariants as owner;
ghost use Rattle.php_state.specs.Fits.{Fits};
ghost use Rattle.php_state.specs.Linked.{IsLinked};
ghost use Rattle.php_state.specs.Views.{world_of};
ghost use Rattle.php_machine.specs.Opening.{opened_store, opened_world, input_of};
ghost use Rattle.php_machine.specs.Whole.{whole};

use crate::machine::Machine;
use backward_list::Backward;
use php_names::NameTable;
use php_rest::{Owner, Scene};
use php_state::{Program, State};
use php_tables::{Entered, Functions, PathTable};
use php_tally::Tally;
use php_values::{ArrayValue, Value};
use php_world::{Change, PlaceFault, Store};
use sqlite_items::Items;
use std::alloc::{AllocError, Global};

/// What a run is given.
#[derive(Drop)]
pub struct Input<'a> {
    /// The path of the script.
    pub script: &'a Items<u8>,
    pub get: ArrayValue,
    pub post: ArrayValue,
    pub cookie: ArrayValue,
    pub request: ArrayValue,
    pub server: ArrayValue,
}

// A variable holds an array.
fn set(alloc: Global, number: usize, value: Value, store: &mut Store) -> Result<(), AllocError>
    ensures { OnOk result ((t : Naming) → vars_of t store.new ≡ assigned (t.name number) (data_of value) (vars_of t store.old)) }
{
    match store.write(alloc, number, &[], Change::Put(value)) {
        Ok(()) => Ok(()),
        Err(PlaceFault::Memory) => Err(AllocError),
        Err(_) => Ok(()),
    }
}

// The variables with which a run begins, the superglobals by their numbers.
fn opening_store(
    alloc: Global,
    get: ArrayValue,
    post: ArrayValue,
    cookie: ArrayValue,
    request: ArrayValue,
    server: ArrayValue,
) -> Result<Store, AllocError>
    ensures { IfOk result (λ store. (t : Naming) → vars_of t store ≡ opened_store t get post cookie request server) }
{
    let mut store = Store::new(alloc);
    set(alloc, 0, Value::List(get), &mut store)?;
    set(alloc, 1, Value::List(post), &mut store)?;
    set(alloc, 2, Value::List(cookie), &mut store)?;
    set(alloc, 3, Value::List(request), &mut store)?;
    set(alloc, 4, Value::List(server), &mut store)?;
    Ok(store)
}

// The state in which a run begins.
fn opening_state<'a>(
    alloc: Global,
    program: &'a Program,
    script: &'a Items<u8>,
    store: Store,
) -> Result<State<'a>, AllocError>
    ensures world { IfOk result (λ state. (t : Naming) → world_of t state ≡ opened_world (vars_of t store) script.now program.now.paths) }
    ensures program { IfOk result (λ state. state.program.now ≡ program.now) }
{
    let mut entered = Entered::new(alloc);
    entered.push(alloc, script)?;
    let owner = Owner::File(script);
    let scene = Scene {
        owner,
        depth: 0,
        file: script,
        line: 1,
    };
    Ok(State {
        store,
        scene,
        functions: Functions::new(alloc),
        constants: NameTable::new(alloc),
        entered,
        statics: PathTable::new(alloc),
        printed: 0,
        script,
        program,
    })
}

/// A run that has done nothing yet. What comes next is the entry of the script.
pub fn begin<'a>(
    alloc: Global,
    program: &'a Program,
    input: Input<'a>,
    budget: u32,
) -> Result<Machine<'a>, AllocError>
    ensures law { IfOk result (λ m. (look : Look) (t : Naming) → IsLinked program.now → Fits t m.state → whole look t m (now.Enter (owner.File input.entry.script)) ≡ result_of (trace_by look program.now.paths (input_of input.entry) budget)) }
    ensures program { IfOk result (λ m. m.state.program.now ≡ program.now) }
{
    let Input {
        script,
        get,
        post,
        cookie,
        request,
        server,
    } = input;
    let store = opening_store(alloc, get, post, cookie, request, server)?;
    let state = opening_state(alloc, program, script, store)?;
    Ok(Machine {
        tally: Tally::new(alloc, budget),
        state,
        stack: Backward::new(alloc),
    })
}
