// The classes that are there from the start: the throwables.

ghost use Rattle.std.specs.Prelude.{◌≡◌, ◌<◌, ◌++◌, ◌∷◌, [], length, map, IfOk, OnOk};
ghost use Rattle.php_classes.specs.BuiltIn.{public_method, told, throwable, base, descendant, built_in};

use crate::class::{ClassEntry, MemberEntry, MemberKind};
use crate::fault::ClassFault;
use crate::members::MemberList;
use crate::table::ClassTable;
use php_tree::decl::{ClassKind, Visibility};
use sqlite_items::Items;
use std::alloc::{AllocError, Global};

fn add_method(
    alloc: Global,
    methods: &mut MemberList,
    has_body: bool,
    name: &[u8],
) -> Result<(), AllocError>
    ensures { OnOk result (methods.new ≡ methods.old ++ public_method has_body name.now ∷ []) }
{
    methods.push(MemberEntry {
        kind: MemberKind::Method,
        name: Items::from_slice(alloc, name)?,
        visibility: Visibility::Public,
        has_body,
    })?;
    Ok(())
}

// What a throwable tells.
fn add_told(alloc: Global, methods: &mut MemberList, has_body: bool) -> Result<(), AllocError>
    ensures { OnOk result (methods.new ≡ methods.old ++ map (public_method has_body) told) }
{
    add_method(alloc, methods, has_body, b"getMessage")?;
    add_method(alloc, methods, has_body, b"getCode")?;
    add_method(alloc, methods, has_body, b"getFile")?;
    add_method(alloc, methods, has_body, b"getLine")?;
    Ok(())
}

fn throwable(alloc: Global) -> Result<ClassEntry, AllocError>
    ensures { IfOk result (λ class. class ≡ throwable) }
{
    let mut members = MemberList::new(alloc);
    add_told(alloc, &mut members, false)?;
    Ok(ClassEntry {
        kind: ClassKind::Interface,
        name: Items::from_slice(alloc, b"Throwable")?,
        parent: None,
        interfaces: Items::new(alloc),
        members,
    })
}

// `Exception` or `Error`.
fn base(alloc: Global, name: &[u8]) -> Result<ClassEntry, AllocError>
    ensures { IfOk result (λ class. class ≡ base name.now) }
{
    let mut members = MemberList::new(alloc);
    add_method(alloc, &mut members, true, b"__construct")?;
    add_told(alloc, &mut members, true)?;
    let mut interfaces = Items::new(alloc);
    interfaces.push(0)?;
    Ok(ClassEntry {
        kind: ClassKind::Plain,
        name: Items::from_slice(alloc, name)?,
        parent: None,
        interfaces,
        members,
    })
}

fn add_base(alloc: Global, table: &mut ClassTable, name: &[u8]) -> Result<(), ClassFault>
    requires { 0 < length table.old }
    ensures { OnOk result (table.new ≡ table.old ++ base name.now ∷ []) }
{
    let class = base(alloc, name)?;
    let _number = table.add(alloc, class)?;
    Ok(())
}

fn add_descendant(
    alloc: Global,
    table: &mut ClassTable,
    name: &[u8],
    parent: u32,
) -> Result<(), ClassFault>
    requires { parent < length table.old }
    ensures { OnOk result (table.new ≡ table.old ++ descendant name.now parent ∷ []) }
{
    let class = ClassEntry {
        kind: ClassKind::Plain,
        name: Items::from_slice(alloc, name)?,
        parent: Some(parent),
        interfaces: Items::new(alloc),
        members: MemberList::new(alloc),
    };
    let _number = table.add(alloc, class)?;
    Ok(())
}

impl ClassTable {
    /// The throwables: `Throwable` with the number 0, `Exception` 1, `Error` 2, and their descendants. An error means want of
    /// memory.
    pub fn new(alloc: Global) -> Result<ClassTable, ClassFault>
        ensures { IfOk result (λ table. table ≡ built_in) }
    {
        let mut table = ClassTable::empty(alloc);
        let _throwable = table.add(alloc, throwable(alloc)?)?;
        add_base(alloc, &mut table, b"Exception")?;
        add_base(alloc, &mut table, b"Error")?;
        add_descendant(alloc, &mut table, b"LogicException", 1)?;
        add_descendant(alloc, &mut table, b"RuntimeException", 1)?;
        add_descendant(alloc, &mut table, b"InvalidArgumentException", 3)?;
        add_descendant(alloc, &mut table, b"TypeError", 2)?;
        add_descendant(alloc, &mut table, b"ArithmeticError", 2)?;
        add_descendant(alloc, &mut table, b"ArgumentCountError", 6)?;
        add_descendant(alloc, &mut table, b"DivisionByZeroError", 7)?;
        Ok(table)
    }
}
