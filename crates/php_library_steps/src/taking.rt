// Arrays that are taken out of their variables, and put back.

ghost use Rattle.std.specs.Prelude.{◌≡◌, IfOk, OnOk};
ghost use Rattle.php_world.specs.Naming.{Naming};
ghost use Rattle.php_world.specs.Variables.{Variables, value_of};
ghost use Rattle.php_world.specs.View.{vars_of};
ghost use Rattle.php_arguments.specs.Answers.{datas};
ghost use Rattle.php_values.specs.Data.{data_of};
ghost use Rattle.php_meaning.specs.Calls.{assigned};
ghost use Rattle.php_meaning.specs.Apply.{first_or_null};
ghost use Rattle.php_library_steps.specs.Taking.{is_array, Takes};

use php_values::Value;
use php_world::{Change, Store};
use std::alloc::{AllocError, Global};
use std::mem;

// Whether a variable holds an array.
fn holds_array(number: u32, store: &Store) -> bool
    ensures { (t : Naming) → result ≡ is_array (value_of (t.name number) (vars_of t store.now)) }
{
    match store.value(number as usize) {
        Some(value) => matches!(value, Value::List(_)),
        None => false,
    }
}

/// Makes a variable hold a value.
pub(crate) fn assign(
    alloc: Global,
    number: u32,
    value: Value,
    store: &mut Store,
) -> Result<(), AllocError>
    ensures { OnOk result ((t : Naming) → vars_of t store.new ≡ assigned (t.name number) (data_of value) (vars_of t store.old)) }
{
    match store.write(alloc, number as usize, &[], Change::Put(value)) {
        Ok(()) => Ok(()),
        // A whole variable takes any value, so that only memory can be short.
        Err(_) => Err(AllocError),
    }
}

/// Takes an array out of its variable, so that no copy is shared there. Answers whether it did.
pub(crate) fn take_array(alloc: Global, number: u32, store: &mut Store) -> Result<bool, AllocError>
    ensures { IfOk result (λ taken. (t : Naming) → Takes (t.name number) (vars_of t store.old) (vars_of t store.new) taken) }
{
    if !holds_array(number, store) {
        return Ok(false);
    }
    assign(alloc, number, Value::Null, store)?;
    Ok(true)
}

// The first of some values, which is taken out of them.
fn first_value(values: &mut [Value]) -> Value
    ensures { data_of result ≡ first_or_null (datas values.old) }
{
    match values.first_mut() {
        None => Value::Null,
        Some(first) => mem::replace(first, Value::Null),
    }
}

/// Makes a variable hold the first of some values.
pub(crate) fn assign_first(
    alloc: Global,
    number: u32,
    values: &mut [Value],
    store: &mut Store,
) -> Result<(), AllocError>
    ensures { OnOk result ((t : Naming) → vars_of t store.new ≡ assigned (t.name number) (first_or_null (datas values.old)) (vars_of t store.old)) }
{
    let value = first_value(values);
    assign(alloc, number, value, store)
}

/// Puts an array that was taken back into its variable, where it stands first among some values.
pub(crate) fn put_back(
    alloc: Global,
    number: u32,
    taken: bool,
    values: &mut [Value],
    store: &mut Store,
) -> Result<(), AllocError>
    ensures { OnOk result ((t : Naming) (vs : Variables) → Takes (t.name number) vs (vars_of t store.old) taken → first_or_null (datas values.old) ≡ value_of (t.name number) vs → vars_of t store.new ≡ vs) }
{
    if !taken {
        return Ok(());
    }
    assign_first(alloc, number, values, store)
}
