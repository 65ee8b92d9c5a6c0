// The names of a program's variables.

ghost use Rattle.std.specs.Prelude.{◌≡◌, [], ◌∷◌, ◌++◌, None, Some, IfOk, OnOk, slice_get, map, position};
ghost use Rattle.std.specs.Str.{bytes_eq};
ghost use Rattle.php_state.specs.Linked.{text_of_name, AreApart};
ghost use Rattle.php_link.specs.Names.{AreSame, IsNumbered, AreNumbered, first_names};

use php_renumber::Numbers;
use php_tables::PathTable;
use php_tree::name::VarName;
use sqlite_items::Items;
use std::alloc::{AllocError, Global};

/// The number of the empty name, for what stands past a file's list of names. It is behind the superglobals.
const UNNAMED: u32 = 6;

/// The names that have a number, and a table to look them up in.
#[derive(Drop)]
pub struct Names {
    pub list: Items<VarName>,
    pub table: PathTable,
}

// Puts a name behind the others.
fn push_name(alloc: Global, list: &mut Items<VarName>, text: &[u8]) -> Result<(), AllocError>
    ensures { OnOk result (map text_of_name list.new ≡ map text_of_name list.old ++ text.now ∷ []) }
{
    let text = Items::from_slice(alloc, text)?;
    list.push(VarName { text })?;
    Ok(())
}

// The superglobals, and the empty name.
fn first_list(alloc: Global) -> Result<Items<VarName>, AllocError>
    ensures { IfOk result (λ list. map text_of_name list ≡ first_names) }
{
    let mut list = Items::new(alloc);
    push_name(alloc, &mut list, b"_GET")?;
    push_name(alloc, &mut list, b"_POST")?;
    push_name(alloc, &mut list, b"_COOKIE")?;
    push_name(alloc, &mut list, b"_REQUEST")?;
    push_name(alloc, &mut list, b"_SERVER")?;
    push_name(alloc, &mut list, b"_SESSION")?;
    push_name(alloc, &mut list, b"")?;
    Ok(list)
}

// A table of names of which none stands twice.
fn table_of(alloc: Global, list: &[VarName]) -> Result<PathTable, AllocError>
    requires { AreApart (map text_of_name list.now) }
    ensures { IfOk result (λ table. table ≡ map text_of_name list.now) }
{
    let mut table = PathTable::new(alloc);
    for name in list {
        table.add(alloc, name.text.as_slice())?;
    }
    Ok(table)
}

/// The names with which every program begins.
pub fn first(alloc: Global) -> Result<Names, AllocError>
    ensures same { IfOk result (λ names. AreSame names) }
    ensures first { IfOk result (λ names. names.table ≡ first_names) }
{
    let list = first_list(alloc)?;
    let table = table_of(alloc, list.as_slice())?;
    Ok(Names { list, table })
}

// A count as the number of a name. More names than a `u32` counts are answered as want of memory.
fn small(count: usize) -> Result<u32, AllocError>
    ensures { IfOk result (λ number. number ≡ count) }
{
    if count > 0xFFFF_FFFF {
        return Err(AllocError);
    }
    Ok(count as u32)
}

// Gives a name that has none the next number.
fn add(alloc: Global, names: &mut Names, text: &[u8]) -> Result<u32, AllocError>
    requires same { AreSame names.old }
    requires absent { position (bytes_eq text.now) names.old.table ≡ None }
    ensures { IfOk result (λ number. IsNumbered names.old names.new text.now number) }
{
    let number = small(names.table.len())?;
    names.table.add(alloc, text)?;
    push_name(alloc, &mut names.list, text)?;
    Ok(number)
}

// The number of a name, which gets one where it has none.
fn number_of(alloc: Global, names: &mut Names, text: &[u8]) -> Result<u32, AllocError>
    requires { AreSame names.old }
    ensures { IfOk result (λ number. IsNumbered names.old names.new text.now number) }
{
    match names.table.number(text) {
        Some(number) => {
            let number = small(number)?;
            Ok(number)
        }
        None => {
            let number = add(alloc, names, text)?;
            Ok(number)
        }
    }
}

/// The numbers of a file's variables.
pub fn numbers_of(
    alloc: Global,
    names: &mut Names,
    variables: &[VarName],
) -> Result<Numbers, AllocError>
    requires same { AreSame names.old }
    requires unnamed { slice_get names.old.table 6 ≡ Some [] }
    ensures { IfOk result (λ numbers. AreNumbered names.old names.new variables.now numbers) }
{
    let mut others = Items::new(alloc);
    for variable in variables {
        let number = number_of(alloc, names, variable.text.as_slice())?;
        others.push(number)?;
    }
    Ok(Numbers {
        others,
        past: UNNAMED,
    })
}
