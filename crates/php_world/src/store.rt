// Cells, and names of cells.

ghost use Rattle.std.specs.Prelude.{◌≡◌, IfOk, OnOk, MatchOption, Option, map, slice_set};
ghost use Rattle.std.specs.declared.option.Option.TheVariants.{Some};
ghost use Rattle.php_values.specs.Data.{data_of, null};
ghost use Rattle.php_world.specs.Answers.{TellsData, Makes, when_ok};
ghost use Rattle.php_world.specs.Steps.{read_by};
ghost use Rattle.php_world.specs.Places.{write_at, unset_at};
ghost use Rattle.php_world.specs.Naming.{Naming};
ghost use Rattle.php_world.specs.Variables as spec;
ghost use Rattle.php_world.specs.View.{held_of, path_of, change_of, vars_of};

use crate::cell::{Cell, Held};
use crate::fault::PlaceFault;
use crate::read::read_value;
use crate::reading::Reading;
use crate::scopes::Scopes;
use crate::step::{Change, Step};
use crate::unset::unset_value;
use crate::write::write_value;
use php_values::Value;
use std::alloc::{AllocError, Global};

/// How many superglobals there are. They have the first numbers, in this order: `_GET`, `_POST`, `_COOKIE`, `_REQUEST`,
/// `_SERVER`, `_SESSION`.
const SUPERGLOBALS: usize = 6;

/// The cells of a run, and its names by their numbers. Contracts see it by `vars_of` and a numbering of names.
#[derive(Drop)]
pub struct Store {
    pub lasting: Vec<Value>,
    pub locals: Vec<Value>,
    pub globals: Scopes,
    pub calls: Scopes,
    pub statics: Scopes,
}

// The cell that a name is bound to.
fn cell_in(held: Held) -> Option<Cell>
    ensures { result ≡ spec.cell_held (held_of held) }
{
    match held {
        Held::Nothing => None,
        Held::OwnLasting(n) => Some(Cell::Lasting(n)),
        Held::SharedLasting(n) => Some(Cell::Lasting(n)),
        Held::OwnLocal(n) => Some(Cell::Local(n)),
        Held::SharedLocal(n) => Some(Cell::Local(n)),
    }
}

// A binding to a cell that may have other names.
fn shared(cell: Cell) -> Held
    ensures { held_of result ≡ Some (spec.shared cell) }
{
    match cell {
        Cell::Lasting(n) => Held::SharedLasting(n),
        Cell::Local(n) => Held::SharedLocal(n),
    }
}

// What a cell holds.
fn item(cells: &[Value], cell: usize) -> Option<&Value>
    ensures { MatchOption result (spec.item_of cell (map data_of cells.now) ≡ null) (λ v. spec.item_of cell (map data_of cells.now) ≡ data_of v.now) }
{
    if cell < cells.len() {
        Some(&cells[cell])
    } else {
        None
    }
}

// Puts a value into a cell; past the cells nothing changes.
fn set_item(cells: &mut Vec<Value>, cell: usize, value: Value)
    ensures { map data_of cells.new.items ≡ slice_set (map data_of cells.old.items) cell (data_of value) }
{
    if cell < cells.len() {
        cells[cell] = value;
    }
}

// Changes what a cell holds.
fn write_item(
    alloc: Global,
    cells: &mut Vec<Value>,
    cell: usize,
    path: &[Step],
    change: Change,
) -> Result<(), PlaceFault>
    ensures { Makes (when_ok (slice_set (map data_of cells.old.items) cell) (write_at (path_of path.now) (change_of change) (spec.item_of cell (map data_of cells.old.items)))) (map data_of cells.old.items) (map data_of cells.new.items) result }
{
    if cell < cells.len() {
        write_value(alloc, &mut cells[cell], path, change)
    } else {
        let mut hole = Value::Null;
        write_value(alloc, &mut hole, path, change)
    }
}

// Removes a place of what a cell holds.
fn unset_item(
    alloc: Global,
    cells: &mut Vec<Value>,
    cell: usize,
    path: &[Step],
) -> Result<(), PlaceFault>
    ensures { Makes (when_ok (slice_set (map data_of cells.old.items) cell) (unset_at (path_of path.now) (spec.item_of cell (map data_of cells.old.items)))) (map data_of cells.old.items) (map data_of cells.new.items) result }
{
    if cell < cells.len() {
        unset_value(alloc, &mut cells[cell], path)
    } else {
        let mut hole = Value::Null;
        unset_value(alloc, &mut hole, path)
    }
}

impl Store {
    /// No variable has a cell, and no call runs. It takes no memory.
    pub fn new(alloc: Global) -> Store
        ensures { (t : Naming) → vars_of t result ≡ spec.no_variables }
    {
        Store {
            lasting: Vec::new(alloc),
            locals: Vec::new(alloc),
            globals: Scopes::new(alloc),
            calls: Scopes::new(alloc),
            statics: Scopes::new(alloc),
        }
    }

    // What a name is bound to by the code that runs.
    fn scope_held(&self, name: usize) -> Held
        ensures { (t : Naming) → held_of result ≡ spec.scope_of (vars_of t self.now).globals (vars_of t self.now).calls (t.name name) }
    {
        if self.calls.is_top() {
            self.globals.get(name)
        } else {
            self.calls.get(name)
        }
    }

    // A binding, or, where there is none, that of a global.
    fn or_global(&self, held: Held, name: usize) -> Held
        ensures { (t : Naming) → held_of result ≡ spec.or_else (held_of held) ((vars_of t self.now).globals (t.name name)) }
    {
        match held {
            Held::Nothing => self.globals.get(name),
            bound => bound,
        }
    }

    // What a name is bound to.
    fn held(&self, name: usize) -> Held
        ensures { (t : Naming) → held_of result ≡ spec.slot_of (t.name name) (vars_of t self.now) }
    {
        let held = self.scope_held(name);
        if name < SUPERGLOBALS {
            self.or_global(held, name)
        } else {
            held
        }
    }

    // Binds a name among the globals.
    fn bind_global(&mut self, name: usize, held: Held) -> Result<(), AllocError>
        ensures { OnOk result ((t : Naming) → vars_of t self.new ≡ spec.with_global (t.name name) (held_of held) (vars_of t self.old)) }
    {
        self.globals.bind(name, held)
    }

    // Binds a name of the code that runs.
    fn rebind(&mut self, name: usize, held: Held) -> Result<(), AllocError>
        ensures { OnOk result ((t : Naming) → vars_of t self.new ≡ spec.rebound (t.name name) (held_of held) (vars_of t self.old)) }
    {
        if self.calls.is_top() {
            self.globals.bind(name, held)
        } else {
            self.calls.bind(name, held)
        }
    }

    // Changes what a name is bound to, where it stands.
    fn change_slot(&mut self, name: usize, held: Held) -> Result<(), AllocError>
        ensures { OnOk result ((t : Naming) → vars_of t self.new ≡ spec.with_slot (t.name name) (held_of held) (vars_of t self.old)) }
    {
        match cell_in(self.scope_held(name)) {
            Some(_) => self.rebind(name, held),
            None => self.bind_global(name, held),
        }
    }

    // A new cell of a global variable.
    fn new_global(&mut self, name: usize, value: Value) -> Result<Cell, AllocError>
        ensures { IfOk result (λ cell. (t : Naming) → (cell, vars_of t self.new) ≡ spec.new_global (t.name name) (data_of value) (vars_of t self.old)) }
    {
        let number = self.lasting.len();
        self.lasting.push(value)?;
        self.bind_global(name, Held::OwnLasting(number))?;
        Ok(Cell::Lasting(number))
    }

    // A new cell of the call that runs.
    fn new_local(&mut self, name: usize, value: Value) -> Result<Cell, AllocError>
        ensures { IfOk result (λ cell. (t : Naming) → (cell, vars_of t self.new) ≡ spec.new_local (t.name name) (data_of value) (vars_of t self.old)) }
    {
        let number = self.locals.len();
        self.locals.push(value)?;
        self.rebind(name, Held::OwnLocal(number))?;
        Ok(Cell::Local(number))
    }

    // A new cell for a name that has none.
    fn new_cell(&mut self, name: usize, value: Value) -> Result<Cell, AllocError>
        ensures { IfOk result (λ cell. (t : Naming) → (cell, vars_of t self.new) ≡ spec.new_cell (t.name name) (data_of value) (vars_of t self.old)) }
    {
        if self.calls.is_top() {
            return self.new_global(name, value);
        }
        if name < SUPERGLOBALS {
            return self.new_global(name, value);
        }
        self.new_local(name, value)
    }

    /// The cell of a name, which is made for a name that has none.
    pub fn cell(&mut self, name: usize) -> Result<Cell, AllocError>
        ensures { IfOk result (λ cell. (t : Naming) → (cell, vars_of t self.new) ≡ spec.cell_of (t.name name) (vars_of t self.old)) }
    {
        match cell_in(self.held(name)) {
            Some(cell) => Ok(cell),
            None => self.new_cell(name, Value::Null),
        }
    }

    /// The cell of a name, which gets another name.
    pub fn shared_cell(&mut self, name: usize) -> Result<Cell, AllocError>
        ensures { IfOk result (λ cell. (t : Naming) → (cell, vars_of t self.new) ≡ spec.shared_cell (t.name name) (vars_of t self.old)) }
    {
        let cell = self.cell(name)?;
        self.change_slot(name, shared(cell))?;
        Ok(cell)
    }

    /// Makes a name one of a cell that has another name.
    pub fn bind(&mut self, name: usize, cell: Cell) -> Result<(), AllocError>
        ensures { OnOk result ((t : Naming) → vars_of t self.new ≡ spec.bound (t.name name) cell (vars_of t self.old)) }
    {
        self.rebind(name, shared(cell))
    }

    /// Makes a name one more name of another's cell.
    pub fn refer(&mut self, name: usize, other: usize) -> Result<(), AllocError>
        ensures { OnOk result ((t : Naming) → vars_of t self.new ≡ spec.referred (t.name name) (t.name other) (vars_of t self.old)) }
    {
        let cell = self.shared_cell(other)?;
        self.bind(name, cell)
    }

    // The cell of a global variable, which gets another name.
    fn global_cell(&mut self, name: usize) -> Result<Cell, AllocError>
        ensures { IfOk result (λ cell. (t : Naming) → (cell, vars_of t self.new) ≡ spec.global_cell (t.name name) (vars_of t self.old)) }
    {
        let cell = match cell_in(self.globals.get(name)) {
            Some(cell) => cell,
            None => self.new_global(name, Value::Null)?,
        };
        self.bind_global(name, shared(cell))?;
        Ok(cell)
    }

    /// Makes a name one of the global variable's cell.
    pub fn global(&mut self, name: usize) -> Result<(), AllocError>
        ensures { OnOk result ((t : Naming) → vars_of t self.new ≡ spec.global_named (t.name name) (vars_of t self.old)) }
    {
        let cell = self.global_cell(name)?;
        self.bind(name, cell)
    }

    /// The cell of a static variable, by the number of its declaration, where it was used before.
    pub fn static_cell(&self, declaration: usize) -> Option<Cell>
        ensures { (t : Naming) → result ≡ spec.static_cell (t.static declaration) (vars_of t self.now) }
    {
        cell_in(self.statics.get(declaration))
    }

    /// A new cell for a static variable at its first use, with its first value.
    pub fn new_static(&mut self, declaration: usize, value: Value) -> Result<Cell, AllocError>
        ensures { IfOk result (λ cell. (t : Naming) → (cell, vars_of t self.new) ≡ spec.with_static (t.static declaration) (data_of value) (vars_of t self.old)) }
    {
        let number = self.lasting.len();
        self.lasting.push(value)?;
        self.statics.bind(declaration, Held::SharedLasting(number))?;
        Ok(Cell::Lasting(number))
    }

    /// Begins a call: no name is bound.
    pub fn enter(&mut self) -> Result<(), AllocError>
        ensures { OnOk result ((t : Naming) → vars_of t self.new ≡ spec.entered (vars_of t self.old)) }
    {
        self.calls.enter(self.locals.len())
    }

    /// Ends a call: its cells are dropped, and the caller's names are back. At the top level nothing changes.
    pub fn leave(&mut self)
        ensures { (t : Naming) → vars_of t self.new ≡ spec.left (vars_of t self.old) }
    {
        if let Some(base) = self.calls.leave() {
            self.locals.truncate(base);
        }
    }

    // What a cell holds.
    fn value_in(&self, cell: Cell) -> Option<&Value>
        ensures { (t : Naming) → MatchOption result (spec.cell_value cell (vars_of t self.now) ≡ null) (λ v. spec.cell_value cell (vars_of t self.now) ≡ data_of v.now) }
    {
        match cell {
            Cell::Lasting(n) => item(self.lasting.as_slice(), n),
            Cell::Local(n) => item(self.locals.as_slice(), n),
        }
    }

    /// What a variable holds, not copied; `None` stands for null.
    pub fn value(&self, name: usize) -> Option<&Value>
        ensures { (t : Naming) → MatchOption result (spec.value_of (t.name name) (vars_of t self.now) ≡ null) (λ v. spec.value_of (t.name name) (vars_of t self.now) ≡ data_of v.now) }
    {
        match cell_in(self.held(name)) {
            Some(cell) => self.value_in(cell),
            None => None,
        }
    }

    /// What is read of a place. Texts and arrays are shared.
    pub fn read(
        &self,
        alloc: Global,
        how: Reading,
        name: usize,
        path: &[Step],
    ) -> Result<Value, PlaceFault>
        ensures { (t : Naming) → TellsData (spec.place_by how (t.name name) (path_of path.now) (vars_of t self.now)) result }
    {
        match self.value(name) {
            Some(value) => read_value(alloc, how, value, path),
            None => read_value(alloc, how, &Value::Null, path),
        }
    }

    // Changes what a cell holds.
    fn write_cell(
        &mut self,
        alloc: Global,
        cell: Cell,
        path: &[Step],
        change: Change,
    ) -> Result<(), PlaceFault>
        ensures { (t : Naming) → Makes (spec.write_cell cell (path_of path.now) (change_of change) (vars_of t self.old)) (vars_of t self.old) (vars_of t self.new) result }
    {
        match cell {
            Cell::Lasting(n) => write_item(alloc, &mut self.lasting, n, path, change),
            Cell::Local(n) => write_item(alloc, &mut self.locals, n, path, change),
        }
    }

    // Writes to a place of a variable that has no cell.
    fn write_new(
        &mut self,
        alloc: Global,
        name: usize,
        path: &[Step],
        change: Change,
    ) -> Result<(), PlaceFault>
        ensures { (t : Naming) → Makes (when_ok (λ d. (spec.new_cell (t.name name) d (vars_of t self.old)).1) (write_at (path_of path.now) (change_of change) null)) (vars_of t self.old) (vars_of t self.new) result }
    {
        let mut value = Value::Null;
        write_value(alloc, &mut value, path, change)?;
        let _cell = self.new_cell(name, value)?;
        Ok(())
    }

    /// Changes what stands in a place. Where that is refused, nothing changes.
    pub fn write(
        &mut self,
        alloc: Global,
        name: usize,
        path: &[Step],
        change: Change,
    ) -> Result<(), PlaceFault>
        ensures { (t : Naming) → Makes (spec.write_place (t.name name) (path_of path.now) (change_of change) (vars_of t self.old)) (vars_of t self.old) (vars_of t self.new) result }
    {
        match cell_in(self.held(name)) {
            Some(cell) => self.write_cell(alloc, cell, path, change),
            None => self.write_new(alloc, name, path, change),
        }
    }

    /// Unsets a variable.
    pub fn unset_variable(&mut self, name: usize) -> Result<(), AllocError>
        ensures { OnOk result ((t : Naming) → vars_of t self.new ≡ spec.unset_variable (t.name name) (vars_of t self.old)) }
    {
        match self.held(name) {
            Held::Nothing => Ok(()),
            Held::OwnLasting(n) => {
                set_item(&mut self.lasting, n, Value::Null);
                Ok(())
            }
            Held::OwnLocal(n) => {
                set_item(&mut self.locals, n, Value::Null);
                Ok(())
            }
            Held::SharedLasting(_) => self.change_slot(name, Held::Nothing),
            Held::SharedLocal(_) => self.change_slot(name, Held::Nothing),
        }
    }

    // Removes a place of what a cell holds.
    fn unset_cell(&mut self, alloc: Global, cell: Cell, path: &[Step]) -> Result<(), PlaceFault>
        ensures { (t : Naming) → Makes (spec.unset_cell cell (path_of path.now) (vars_of t self.old)) (vars_of t self.old) (vars_of t self.new) result }
    {
        match cell {
            Cell::Lasting(n) => unset_item(alloc, &mut self.lasting, n, path),
            Cell::Local(n) => unset_item(alloc, &mut self.locals, n, path),
        }
    }

    /// Removes a place within a variable, where it is there. Where that is refused, nothing changes.
    pub fn unset(&mut self, alloc: Global, name: usize, path: &[Step]) -> Result<(), PlaceFault>
        ensures { (t : Naming) → Makes (spec.unset_place (t.name name) (path_of path.now) (vars_of t self.old)) (vars_of t self.old) (vars_of t self.new) result }
    {
        match cell_in(self.held(name)) {
            Some(cell) => self.unset_cell(alloc, cell, path),
            None => {
                let mut hole = Value::Null;
                unset_value(alloc, &mut hole, path)
            }
        }
    }
}
