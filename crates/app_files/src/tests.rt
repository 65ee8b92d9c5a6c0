use super::*;
use app_load::LimitName;
use std::alloc::Global;
use std::test::Fail;

// Files of zeros, by their paths and lengths.
fn files(alloc: Global, rows: &[(&str, usize)]) -> Result<Vec<(String, Vec<u8>)>, Fail> {
    let mut all = Vec::new(alloc);
    for (path, len) in rows {
        all.push((String::from_str(alloc, path)?, vec![in alloc; 0u8; *len]?))?;
    }
    Ok(all)
}

#[test]
fn a_path_is_the_first_limit(rt: HostRuntime) -> Result<(), Fail> {
    let alloc = rt.alloc();
    assert_eq!(rt; first_limit(&files(alloc, &[])?), None);
    let right = files(alloc, &[("index.php", 3), ("a/b.css", 2)])?;
    assert_eq!(rt; first_limit(&right), None);
    let path = files(alloc, &[("index.php", 3), ("a//b", 2)])?;
    assert_eq!(rt; first_limit(&path), Some(LimitName::Path));
    assert_eq!(rt; is_php(b"a/b.php"), true);
    assert_eq!(rt; is_php(b"b.php.txt"), false);
    Ok(())
}

#[test]
fn an_application_is_a_program(rt: HostRuntime) -> Result<(), Fail> {
    let alloc = rt.alloc();
    let app = App::new(alloc, FileSet::new(Vec::new(alloc)))?;
    let program = app.as_program()?;
    assert_eq!(rt; app.files().len(), 0);
    assert_eq!(rt; program.files().len(), 0);
    Ok(())
}
