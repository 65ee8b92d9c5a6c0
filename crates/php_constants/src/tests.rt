// Constants by name.
use crate::constant_value;
use order_map::ByteText;
use php_names::NameTable;
use php_values::{Value, strict_eq};
use std::alloc::{AllocError, Global};

// Whether a name on line 7 of `lib/a.php` has a value.
fn has(
    alloc: Global,
    constants: &NameTable<Value>,
    name: &[u8],
    value: Value,
) -> Result<bool, AllocError> {
    match constant_value(alloc, constants, b"lib/a.php", 7, name)? {
        Some(found) => strict_eq(alloc, &found, &value),
        None => Ok(false),
    }
}

fn table(alloc: Global) -> Result<NameTable<Value>, AllocError> {
    let mut table = NameTable::new(alloc);
    if table.get(b"Limit").is_none() {
        table.add(alloc, b"Limit", Value::Int(9))?;
    }
    Ok(table)
}

#[test]
fn names_have_values(rt: HostRuntime) -> Result<(), AllocError> {
    let alloc = rt.alloc();
    let table = table(alloc)?;
    assert!(rt; has(alloc, &table, b"TRUE", Value::Bool(true))?);
    assert!(rt; has(alloc, &table, b"ENT_QUOTES", Value::Int(3))?);
    assert!(rt; has(alloc, &table, b"__LINE__", Value::Int(7))?);
    assert!(rt; has(alloc, &table, b"Limit", Value::Int(9))?);
    assert!(rt; !has(alloc, &table, b"limit", Value::Int(9))?);
    Ok(())
}

#[test]
fn a_file_knows_its_folder(rt: HostRuntime) -> Result<(), AllocError> {
    let alloc = rt.alloc();
    let table = table(alloc)?;
    let folder = ByteText::from_slice(alloc, b"/app/lib")?;
    assert!(rt; has(alloc, &table, b"__DIR__", Value::Bytes(folder))?);
    Ok(())
}
