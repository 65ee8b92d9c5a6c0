// How a call begins, after its tick.

ghost use Rattle.std.specs.Prelude.{◌≡◌, ℕ, IfOk, OnOk};
ghost use Rattle.std.specs.Option.{option_map};
ghost use Rattle.std.specs.Str.{str_to_ascii_lowercase};
ghost use Rattle.php_tree.specs.Expressions as e;
ghost use Rattle.php_world.specs.Naming.{Naming};
ghost use Rattle.php_world.specs.declared.reading.Reading.{Reading};
ghost use Rattle.php_meaning.specs.Apply as meaning;
ghost use Rattle.php_meaning.specs.Calls as calls;
ghost use Rattle.php_meaning.specs.Expressions as expressions;
ghost use Rattle.php_rest.specs.Named.{all_named};
ghost use Rattle.php_rest.specs.Views.{arguments_named, callee_named};
ghost use Rattle.php_callees.specs.Names.{called_in, declared_in};
ghost use Rattle.php_state.specs.Fits.{Keeps};
ghost use Rattle.php_argument_steps.specs.Reached.{Reaches, ReachesAfterTick, called_with};

use crate::arguments::go_on;
use crate::reached::Reached;
use backward_list::Backward;
use order_map::ByteText;
use php_callees::callee_of;
use php_meaning::FatalName;
use php_names::LowerName;
use php_rest::{Argument, Callee, Frame, Now, Tail};
use php_state::State;
use php_steps::variable;
use php_tables::Functions;
use php_tree::expr::Expr;
use php_tree::name::FunName;
use php_values::Value;
use sqlite_items::Items;
use std::alloc::{AllocError, Global};

// What a name calls, in any case.
fn sought<'a>(
    alloc: Global,
    functions: &Functions<'a>,
    name: &[u8],
) -> Result<Option<Callee<'a>>, AllocError>
    ensures { IfOk result (λ o. (t : Naming) → option_map (callee_named t) o ≡ called_in (str_to_ascii_lowercase name.now) (declared_in t functions.now)) }
{
    let mut lower = LowerName::new(alloc);
    lower.set(name)?;
    Ok(callee_of(functions, lower.as_slice()))
}

// Calls the function of a name, which is refused where it is unknown.
fn begin_sought<'a>(
    alloc: Global,
    name: &[u8],
    args: &'a Items<Expr>,
    state: &mut State<'a>,
    stack: &mut Backward<Frame<'a>>,
) -> Result<Reached<'a>, AllocError>
    ensures law { IfOk result (Reaches state.old state.new stack.old stack.new (λ t. calls.sought name.now (called_with t args.now))) }
    ensures keeps { OnOk result (Keeps state.old state.new) }
{
    match sought(alloc, &state.functions, name)? {
        Some(callee) => {
            let none = Items::new(alloc);
            let reached = go_on(callee, none, Tail::new(args), state, stack)?;
            Ok(reached)
        }
        None => Ok(Reached::Next(Now::Fail(FatalName::Uncaught))),
    }
}

/// Begins a call of a function by its name.
pub fn begin_call<'a>(
    alloc: Global,
    name: &FunName,
    args: &'a Items<Expr>,
    state: &mut State<'a>,
    stack: &mut Backward<Frame<'a>>,
) -> Result<Reached<'a>, AllocError>
    ensures law { IfOk result (λ r. (how : Reading) (line : ℕ) → ReachesAfterTick state.old state.new stack.old stack.new (λ t. expressions.read how (e.call name.now (all_named t args.now) line)) r) }
    ensures keeps { OnOk result (Keeps state.old state.new) }
{
    let reached = begin_sought(alloc, name.text.as_slice(), args, state, stack)?;
    Ok(reached)
}

/// Begins a call of the function that a variable names.
pub fn begin_call_var<'a>(
    alloc: Global,
    number: u32,
    args: &'a Items<Expr>,
    state: &mut State<'a>,
    stack: &mut Backward<Frame<'a>>,
) -> Result<Reached<'a>, AllocError>
    ensures law { IfOk result (λ r. (how : Reading) (line : ℕ) → ReachesAfterTick state.old state.new stack.old stack.new (λ t. expressions.read how (e.call_var (t.name number) (all_named t args.now) line)) r) }
    ensures keeps { OnOk result (Keeps state.old state.new) }
{
    match variable(&state.store, number)? {
        Value::Bytes(name) => {
            let reached = begin_sought(alloc, name.as_slice(), args, state, stack)?;
            Ok(reached)
        }
        _ => Ok(Reached::Next(Now::Fail(FatalName::Uncaught))),
    }
}

/// Begins a call by a name with arguments that are there.
pub fn begin_call_named<'a>(
    alloc: Global,
    name: &ByteText,
    args: Items<Argument>,
    state: &State<'a>,
) -> Result<Reached<'a>, AllocError>
    ensures { IfOk result (λ r. (stack : _) → ReachesAfterTick state.now state.now stack stack (λ t. meaning.named_call (λ c. meaning.apply c (arguments_named t args)) name.now) r) }
{
    match sought(alloc, &state.functions, name.as_slice())? {
        Some(callee) => Ok(Reached::Ready(callee, args)),
        None => Ok(Reached::Next(Now::Fail(FatalName::Uncaught))),
    }
}
