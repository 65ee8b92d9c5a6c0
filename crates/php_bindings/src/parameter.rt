// How one parameter gets its value.

ghost use Rattle.std.specs.Prelude.{◌≡◌, ℕ, ◌∷◌, ◌+◌, ◌++◌, [], List, drop, IfOk};
ghost use Rattle.php_tree.specs.ExpressionOf.{expression_or_none};
ghost use Rattle.php_tree.specs.Renamed.{renamed_option, renamed_parameter};
ghost use Rattle.php_tree.specs.Statements.{Parameter};
ghost use Rattle.php_tree.specs.StatementOf.{parameter_of};
ghost use Rattle.php_values.specs.Data.{Data, data_of};
ghost use Rattle.php_world.specs.Naming.{Naming};
ghost use Rattle.php_meaning.specs.World.{Name, Declared};
ghost use Rattle.php_meaning.specs.Course.{Does, Then};
ghost use Rattle.php_meaning.specs.Hints as hints;
ghost use Rattle.php_meaning.specs.Calls as calls;
ghost use Rattle.php_rest.specs.Views.{argument_named, arguments_named, function_named};
ghost use Rattle.php_fixed.specs.Evaluated.{gone_on};
ghost use Rattle.php_state.specs.Views.{world_of};
ghost use Rattle.php_bindings.specs.Alike.{Alike};
ghost use Rattle.php_bindings.specs.Bounds.{gone_on_with};

use crate::argument::argument_value;
use crate::bound::{Bound, OneBound, bound_as};
use php_fixed::fixed;
use php_hints::taken;
use php_meaning::FatalName;
use php_rest::{Argument, Function, Outcome};
use php_state::State;
use php_tree::decl::Param;
use php_values::Value;
use std::alloc::{AllocError, Global};

// What a parameter makes of a value, or refuses.
fn taken_or(alloc: Global, param: &Param, value: Value) -> Result<Outcome, AllocError>
    ensures { IfOk result (λ o. (t : Naming) (f : Declared) (n : ℕ) (go : Data → Does) → gone_on o go ≡ calls.taken_or f n go (hints.taken (renamed_parameter t.name (parameter_of param.now)) (data_of value))) }
{
    match taken(alloc, param, value)? {
        Some(value) => Ok(Outcome::Gives(value)),
        None => Ok(Outcome::Fails(FatalName::Uncaught)),
    }
}

// The default of a parameter, which is evaluated as code of the function's file.
fn defaulted(
    alloc: Global,
    function: Function<'_>,
    param: &Param,
    state: &State<'_>,
) -> Result<Outcome, AllocError>
    ensures { IfOk result (λ o. (t : Naming) (go : Data → Does) (k : Then) → Alike (gone_on o go (world_of t state.now) k) (calls.defaulted (function_named t function.entry) (renamed_option t.name (expression_or_none param.now.default)) go (world_of t state.now) k)) }
{
    match &param.default {
        None => Ok(Outcome::Fails(FatalName::Uncaught)),
        Some(e) => {
            let path = function.path.as_slice();
            let outcome = fixed(alloc, &state.constants, path, e.get())?;
            Ok(outcome)
        }
    }
}

// A parameter without an argument.
fn left_out(
    alloc: Global,
    function: Function<'_>,
    param: &Param,
    state: &State<'_>,
) -> Result<OneBound, AllocError>
    ensures { IfOk result (λ o. (t : Naming) (n : ℕ) (ps : List (Parameter Name)) (so_far : List calls.Bound) (k : Then) → Alike (gone_on_with t o (λ b. calls.bind (function_named t function.entry) (n + 1) ps [] (so_far ++ b ∷ [])) (world_of t state.now) k) (calls.bind (function_named t function.entry) n (renamed_parameter t.name (parameter_of param.now) ∷ ps) [] so_far (world_of t state.now) k)) }
{
    match defaulted(alloc, function, param, state)? {
        Outcome::Gives(value) => match taken_or(alloc, param, value)? {
            Outcome::Gives(value) => Ok(OneBound::Bound(Bound::Holds(param.variable, value))),
            Outcome::Fails(why) => Ok(OneBound::Fails(why)),
        },
        Outcome::Fails(why) => Ok(OneBound::Fails(why)),
    }
}

// A parameter whose argument is there.
fn given(
    alloc: Global,
    param: &Param,
    argument: &Argument,
    state: &State<'_>,
) -> Result<OneBound, AllocError>
    ensures { IfOk result (λ o. (t : Naming) (f : Declared) (n : ℕ) (ps : List (Parameter Name)) (args : List calls.Argument) (so_far : List calls.Bound) (k : Then) → gone_on_with t o (λ b. calls.bind f (n + 1) ps args (so_far ++ b ∷ [])) (world_of t state.now) k ≡ calls.bind f n (renamed_parameter t.name (parameter_of param.now) ∷ ps) (argument_named t argument.now ∷ args) so_far (world_of t state.now) k) }
{
    let value = argument_value(argument, &state.store)?;
    match taken_or(alloc, param, value)? {
        Outcome::Gives(value) => Ok(OneBound::Bound(bound_as(param.variable, argument, value))),
        Outcome::Fails(why) => Ok(OneBound::Fails(why)),
    }
}

/// A parameter, by what is left of the arguments.
pub(crate) fn bound_to(
    alloc: Global,
    function: Function<'_>,
    param: &Param,
    args: &[Argument],
    state: &State<'_>,
) -> Result<OneBound, AllocError>
    ensures { IfOk result (λ o. (t : Naming) (n : ℕ) (ps : List (Parameter Name)) (so_far : List calls.Bound) (k : Then) → Alike (gone_on_with t o (λ b. calls.bind (function_named t function.entry) (n + 1) ps (drop 1 (arguments_named t args.now)) (so_far ++ b ∷ [])) (world_of t state.now) k) (calls.bind (function_named t function.entry) n (renamed_parameter t.name (parameter_of param.now) ∷ ps) (arguments_named t args.now) so_far (world_of t state.now) k)) }
{
    match args {
        [] => {
            let bound = left_out(alloc, function, param, state)?;
            Ok(bound)
        }
        [first, ..] => {
            let bound = given(alloc, param, first, state)?;
            Ok(bound)
        }
    }
}
