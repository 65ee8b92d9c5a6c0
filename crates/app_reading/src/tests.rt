use super::*;
use app_load::LimitName;
use less_outside::FolderMem;
use std::alloc::{AllocError, Global};
use std::test::Fail;

// A folder with files of zeros at these paths, of which the call of the given number fails.
fn folder(alloc: Global, rows: &[(&str, usize)], failing: u64) -> Result<FolderMem, AllocError> {
    let mut files = Vec::new(alloc);
    for (path, len) in rows {
        files.push((String::from_str(alloc, path)?, vec![in alloc; 0u8; *len]?))?;
    }
    FolderMem::new(alloc, files, Vec::from_slice(alloc, &[failing])?)
}

#[test]
fn hidden_files_are_no_part(rt: HostRuntime) -> Result<(), Fail> {
    let alloc = rt.alloc();
    let rows = [
        ("app/lib/db.php", 0),
        ("app/.git/config", 0),
        ("app/index.php", 0),
        ("app/lib/.htaccess", 0),
        ("application/a.php", 0),
        ("app/lib.php", 0),
    ];
    let mut folder = folder(alloc, &rows, 9)?;
    let Ok(paths) = part_paths(alloc, &mut folder, "app") else {
        panic!(rt; "the list failed")
    };
    assert_eq!(rt; paths.len(), 3);
    assert_eq!(rt; paths[0].as_str(), "index.php");
    assert_eq!(rt; paths[1].as_str(), "lib.php");
    assert_eq!(rt; paths[2].as_str(), "lib/db.php");
    assert_eq!(rt; is_part(b"a.b/c."), true);
    assert_eq!(rt; is_part(b"a/.b/c"), false);
    Ok(())
}

// How many texts are read below `app`, or why none are.
fn told(alloc: Global, rows: &[(&str, usize)], failing: u64) -> Result<usize, TextsFault> {
    let mut folder = folder(alloc, rows, failing)?;
    let texts = read_texts(alloc, &mut folder, "app")?;
    Ok(texts.len())
}

fn is_told(
    alloc: Global,
    rows: &[(&str, usize)],
    failing: u64,
    expected: Result<usize, TextsFault>,
) -> bool {
    told(alloc, rows, failing) == expected
}

#[test]
fn texts_and_limits(rt: HostRuntime) -> Result<(), Fail> {
    let alloc = rt.alloc();
    let whole = [
        ("app/index.php", 8_388_608),
        ("app/a.css", 33_554_432),
        ("app/.git/a", 1),
    ];
    let php = [
        ("app/index.php", 8_388_608),
        ("app/a.css", 33_554_433),
        ("app/z.php", 1),
    ];
    let others = [
        ("app/index.php", 3),
        ("app/a.css", 33_554_432),
        ("app/b.css", 1),
    ];
    let path = [("app/index.php", 8_388_609), ("app/a'.css", 1)];
    assert!(rt; is_told(alloc, &whole, 9, Ok(2)));
    assert!(rt; is_told(alloc, &php, 9, Err(TextsFault::Limit(LimitName::Total))));
    assert!(rt; is_told(alloc, &others, 9, Err(TextsFault::Limit(LimitName::Static))));
    assert!(rt; is_told(alloc, &path, 9, Err(TextsFault::Limit(LimitName::Path))));
    assert!(rt; is_told(alloc, &whole, 2, Err(TextsFault::ReadFault)));
    assert!(rt; is_told(alloc, &[], 9, Ok(0)));
    Ok(())
}
