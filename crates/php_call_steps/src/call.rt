// Calls, and their arguments.

ghost use Rattle.std.specs.Prelude.{ℕ, IfOk, OnOk};
ghost use Rattle.php_tree.specs.Expressions as e;
ghost use Rattle.php_values.specs.Data.{data_of};
ghost use Rattle.php_world.specs.declared.reading.Reading.{Reading};
ghost use Rattle.php_meaning.specs.Course.{Gives};
ghost use Rattle.php_meaning.specs.Apply as meaning;
ghost use Rattle.php_meaning.specs.Expressions as expressions;
ghost use Rattle.php_rest.specs.Named.{all_named};
ghost use Rattle.php_rest.specs.Rest.{after_call};
ghost use Rattle.php_rest.specs.Views.{arguments_named};
ghost use Rattle.php_rest.specs.declared.call_frame.CallFrame.TheVariants.{ArgumentOf};
ghost use Rattle.php_state.specs.Fits.{Keeps};
ghost use Rattle.php_bindings.specs.Alike.{RunsAlike, RunsAlikeAfterTick};

use crate::applied::carried_on;
use backward_list::Backward;
use order_map::ByteText;
use php_argument_steps as steps;
use php_rest::{Argument, Callee, Frame, Now, Tail};
use php_state::State;
use php_tree::expr::Expr;
use php_tree::name::FunName;
use php_values::Value;
use sqlite_items::Items;
use std::alloc::{AllocError, Global};

/// Begins a call of a function by its name.
pub fn begin_call<'a>(
    alloc: Global,
    name: &FunName,
    args: &'a Items<Expr>,
    state: &mut State<'a>,
    stack: &mut Backward<Frame<'a>>,
) -> Result<Now<'a>, AllocError>
    ensures law { IfOk result (λ now. (how : Reading) (line : ℕ) → RunsAlikeAfterTick state.old state.new stack.old stack.new (λ t. expressions.read how (e.call name.now (all_named t args.now) line)) now) }
    ensures keeps { OnOk result (Keeps state.old state.new) }
{
    let reached = steps::begin_call(alloc, name, args, state, stack)?;
    let now = carried_on(alloc, reached, state, stack)?;
    Ok(now)
}

/// Begins a call of the function that a variable names.
pub fn begin_call_var<'a>(
    alloc: Global,
    number: u32,
    args: &'a Items<Expr>,
    state: &mut State<'a>,
    stack: &mut Backward<Frame<'a>>,
) -> Result<Now<'a>, AllocError>
    ensures law { IfOk result (λ now. (how : Reading) (line : ℕ) → RunsAlikeAfterTick state.old state.new stack.old stack.new (λ t. expressions.read how (e.call_var (t.name number) (all_named t args.now) line)) now) }
    ensures keeps { OnOk result (Keeps state.old state.new) }
{
    let reached = steps::begin_call_var(alloc, number, args, state, stack)?;
    let now = carried_on(alloc, reached, state, stack)?;
    Ok(now)
}

/// Goes on with the value of an argument that a call waited for.
pub fn resume_argument<'a>(
    alloc: Global,
    callee: Callee<'a>,
    so_far: Items<Argument>,
    more: Tail<'a, Expr>,
    value: Value,
    state: &mut State<'a>,
    stack: &mut Backward<Frame<'a>>,
) -> Result<Now<'a>, AllocError>
    ensures law { IfOk result (RunsAlike state.old state.new stack.old stack.new (λ t w k. after_call t (ArgumentOf callee.entry so_far more.entry) k (Gives (data_of value)) w)) }
    ensures keeps { OnOk result (Keeps state.old state.new) }
{
    let reached = steps::resume_argument(callee, so_far, more, value, state, stack)?;
    let now = carried_on(alloc, reached, state, stack)?;
    Ok(now)
}

/// Calls the function of a name with arguments that are there, after a tick of its own.
pub fn call_named<'a>(
    alloc: Global,
    name: &ByteText,
    args: Items<Argument>,
    state: &mut State<'a>,
    stack: &mut Backward<Frame<'a>>,
) -> Result<Now<'a>, AllocError>
    ensures law { IfOk result (RunsAlikeAfterTick state.old state.new stack.old stack.new (λ t. meaning.named_call (λ c. meaning.apply c (arguments_named t args)) name.now)) }
    ensures keeps { OnOk result (Keeps state.old state.new) }
{
    let reached = steps::begin_call_named(alloc, name, args, state)?;
    let now = carried_on(alloc, reached, state, stack)?;
    Ok(now)
}
