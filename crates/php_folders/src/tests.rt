// A table of includes.
use crate::file_named;
use php_tables::PathTable;
use std::alloc::{AllocError, Global};

// What is named by an include of `lib/a.php` in a run of `web/index.php`.
fn named(alloc: Global, files: &PathTable, text: &[u8]) -> Result<Option<usize>, AllocError> {
    file_named(alloc, files, b"web/index.php", b"lib/a.php", text)
}

#[test]
fn includes_name_files(rt: HostRuntime) -> Result<(), AllocError> {
    let alloc = rt.alloc();
    let mut files = PathTable::new(alloc);
    for path in [
        b"a/x.php".as_slice(),
        b"lib/b.php",
        b"web/b.php",
        b"web/p/c.php",
    ] {
        if files.number(path).is_none() {
            files.add(alloc, path)?;
        }
    }
    assert!(rt; named(alloc, &files, b"/app/a/x.php")? == Some(0));
    assert!(rt; named(alloc, &files, b"/app/web/../a/./x.php")? == Some(0));
    assert!(rt; named(alloc, &files, b"/app/../x.php")?.is_none());
    assert!(rt; named(alloc, &files, b"b.php")? == Some(2));
    assert!(rt; named(alloc, &files, b"./p/c.php")? == Some(3));
    assert!(rt; named(alloc, &files, b"../lib/b.php")? == Some(1));
    assert!(rt; named(alloc, &files, b"p/../b.php")? == Some(2));
    assert!(rt; named(alloc, &files, b"p//c.php")?.is_none());
    assert!(rt; named(alloc, &files, b"")?.is_none());
    Ok(())
}
