// `static`.

ghost use Rattle.std.specs.Prelude.{◌≡◌, ◌∷◌, List, ℕ, map, slice_get, IfOk, OnOk};
ghost use Rattle.std.specs.declared.option.Option.{Option};
ghost use Rattle.std.specs.declared.option.Option.TheVariants.{Some};
ghost use Rattle.php_tree.specs.Expressions.{Expression};
ghost use Rattle.php_tree.specs.Renamed.{renamed_option, renamed_statics};
ghost use Rattle.php_tree.specs.ExpressionOf.{expression_or_none};
ghost use Rattle.php_tree.specs.StatementOf as tree;
ghost use Rattle.php_values.specs.Data.{Data, data_of};
ghost use Rattle.php_world.specs.Naming.{Naming};
ghost use Rattle.php_world.specs.Variables.{static_cell};
ghost use Rattle.php_world.specs.View.{vars_of};
ghost use Rattle.php_constants.specs.Named.{Knows};
ghost use Rattle.php_fixed.specs.Evaluated.{GoesOn};
ghost use Rattle.php_meaning.specs.Course.{Then, Does, Normal, hand};
ghost use Rattle.php_meaning.specs.Statements as statements;
ghost use Rattle.php_meaning.specs.World.{World, Name, with_vars, path_of};
ghost use Rattle.php_rest.specs.Views.{entry_of};
ghost use Rattle.php_state.specs.Fits.{Fits, Keeps};
ghost use Rattle.php_state.specs.Views.{world_of};
ghost use Rattle.php_declarations.specs.Ends.{unless_fatal};

use php_fixed::fixed;
use php_meaning::FatalName;
use php_names::{LowerName, NameTable};
use php_rest::{Outcome, Owner};
use php_state::State;
use php_tables::PathTable;
use php_tree::expr::Expr;
use php_tree::stmt::StaticVar;
use php_values::Value;
use php_world::Store;
use sqlite_items::{Boxed, Items};
use std::alloc::{AllocError, Global};

/// The path of the file whose code runs.
pub(crate) fn file_of<'a>(owner: Owner<'a>) -> &'a Items<u8>
    ensures { result.now ≡ path_of (entry_of owner.entry) }
{
    match owner {
        Owner::File(path) => path,
        Owner::Function(function) => function.path,
    }
}

// The text of a static variable's declaration in the code that runs.
fn static_key(alloc: Global, owner: Owner<'_>, name: &[u8]) -> Result<Vec<u8>, AllocError>
    ensures { IfOk result (λ key. key.items ≡ statements.static_key (entry_of owner.entry) name.now) }
{
    let mut key = Vec::new(alloc);
    key.extend_from_slice(file_of(owner).as_slice())?;
    key.push(b'#')?;
    if let Owner::Function(function) = owner {
        let mut lower = LowerName::new(alloc);
        lower.set(function.declaration.get().name.text.as_slice())?;
        key.extend_from_slice(lower.as_slice())?;
    }
    key.push(b'$')?;
    key.extend_from_slice(name)?;
    Ok(key)
}

// The number of a declaration, by its text, which gets one at its first use.
fn declaration(alloc: Global, statics: &mut PathTable, key: &[u8]) -> Result<usize, AllocError>
    ensures number { IfOk result (λ n. slice_get statics.new n ≡ Some key.now) }
    ensures kept { OnOk result ((n : ℕ) (x : List ℕ) → slice_get statics.old n ≡ Some x → slice_get statics.new n ≡ Some x) }
{
    if let Some(number) = statics.number(key) {
        return Ok(number);
    }
    let number = statics.len();
    statics.add(alloc, key)?;
    Ok(number)
}

// The first value of a static variable.
fn first_value(
    alloc: Global,
    constants: &NameTable<Value>,
    path: &[u8],
    written: &Option<Boxed<Expr>>,
) -> Result<Outcome, AllocError>
    ensures { IfOk result (λ o. (go : Naming → Data → Does) → GoesOn path.now constants.now (λ t. statements.first_value (renamed_option t.name (expression_or_none written.now)) (go t)) go o) }
{
    match written {
        None => Ok(Outcome::Gives(Value::Null)),
        Some(e) => {
            let value = fixed(alloc, constants, path, e.get())?;
            Ok(value)
        }
    }
}

// A variable becomes that of a declaration, which gets its first value at its first use.
fn bind_declared(
    alloc: Global,
    variable: &StaticVar,
    declared: usize,
    path: &[u8],
    constants: &NameTable<Value>,
    store: &mut Store,
) -> Result<Option<FatalName>, AllocError>
    ensures { IfOk result (λ o. (t : Naming) (go : Does) (w : World) (k : Then) → Knows path.now constants.now w →
        unless_fatal o go (with_vars (vars_of t store.new) w) k
        ≡ statements.static_or (t.static declared) (t.name variable.now.variable) (renamed_option t.name (expression_or_none variable.now.default)) (static_cell (t.static declared) (vars_of t store.old)) go (with_vars (vars_of t store.old) w) k) }
{
    let number = variable.variable as usize;
    if let Some(cell) = store.static_cell(declared) {
        store.bind(number, cell)?;
        return Ok(None);
    }
    match first_value(alloc, constants, path, &variable.default)? {
        Outcome::Gives(value) => {
            let cell = store.new_static(declared, value)?;
            store.bind(number, cell)?;
            Ok(None)
        }
        Outcome::Fails(why) => Ok(Some(why)),
    }
}

// One variable of a `static` statement.
fn bind_static<'a>(
    alloc: Global,
    variable: &StaticVar,
    state: &mut State<'a>,
) -> Result<Option<FatalName>, AllocError>
    ensures keeps { IfOk result (λ _. Keeps state.old state.new) }
    ensures law { IfOk result (λ o. (t : Naming) (more : List (Name × Option (Expression Name))) (k : Then) → Fits t state.new →
        unless_fatal o (statements.statics_named more) (world_of t state.new) k
        ≡ statements.statics_named ((t.name variable.now.variable, renamed_option t.name (expression_or_none variable.now.default)) ∷ more) (world_of t state.old) k) }
{
    let program = state.program;
    let Some(name) = program.names.get(variable.variable as usize) else {
        return Err(AllocError);
    };
    let owner = state.scene.owner;
    let key = static_key(alloc, owner, name.text.as_slice())?;
    let declared = declaration(alloc, &mut state.statics, key.as_slice())?;
    let path = file_of(owner).as_slice();
    let end = bind_declared(
        alloc,
        variable,
        declared,
        path,
        &state.constants,
        &mut state.store,
    )?;
    Ok(end)
}

/// The variables of a `static` statement in their order. Answers the fatal of the first one whose first value fails. A variable
/// that has no name in the program is answered as a want of memory.
pub(crate) fn bind_statics<'a>(
    alloc: Global,
    variables: &[StaticVar],
    state: &mut State<'a>,
) -> Result<Option<FatalName>, AllocError>
    ensures keeps { IfOk result (λ _. Keeps state.old state.new) }
    ensures law { IfOk result (λ o. (t : Naming) (k : Then) → Fits t state.new →
        unless_fatal o (hand Normal) (world_of t state.new) k ≡ statements.statics_named (renamed_statics t.name (map tree.static_of variables.now)) (world_of t state.old) k) }
{
    for variable in variables {
        if let Some(why) = bind_static(alloc, variable, state)? {
            return Ok(Some(why));
        }
    }
    Ok(None)
}
