// Each call once, with ample memory.
use crate::{LowerName, NameTable, is_word};
use std::alloc::{AllocError, Global};

#[test]
fn a_name_is_found_in_its_own_case_alone(rt: HostRuntime) -> Result<(), AllocError> {
    let mut table: NameTable<u8> = NameTable::new(rt.alloc());
    assert!(rt; table.get(b"Size").is_none());
    if table.get(b"size").is_none() {
        table.add(rt.alloc(), b"size", 7)?;
    }
    assert!(rt; table.get(b"size").copied() == Some(7));
    assert!(rt; table.get(b"Size").is_none());
    assert!(rt; table.len() == 1);
    Ok(())
}

#[test]
fn words_are_told_in_any_case(rt: HostRuntime) -> Result<(), AllocError> {
    assert!(rt; is_word(b"NuLL", b"null"));
    assert!(rt; !is_word(b"nulls", b"null"));
    let mut name = LowerName::new(rt.alloc());
    name.set(b"Tasks_Of")?;
    assert!(rt; name.as_slice() == b"tasks_of".as_slice());
    name.set(b"")?;
    assert!(rt; name.as_slice().is_empty());
    Ok(())
}
