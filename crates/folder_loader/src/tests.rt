use super::*;
use less_outside::FolderMem;
use load_notes::{accepted_text, app_note, copy_note};
use std::alloc::{AllocError, Global};
use std::test::Fail;

// A folder with these files, in which the calls of these numbers fail.
fn folder(alloc: Global, rows: &[(&str, &[u8])], failing: &[u64]) -> Result<FolderMem, AllocError> {
    let mut files = Vec::new(alloc);
    for (path, text) in rows {
        let path = String::from_str(alloc, path)?;
        files.push((path, Vec::from_slice(alloc, text)?))?;
    }
    FolderMem::new(alloc, files, Vec::from_slice(alloc, failing)?)
}

// What `check` tells of an application.
fn told(alloc: Global, mut folder: FolderMem) -> Result<Vec<u8>, AllocError> {
    match load_app_in(alloc, &mut folder, "app") {
        Ok(app) => accepted_text(alloc, app.files()),
        Err(AppRefusal::At { file, line, kind }) => app_note(alloc, file.as_str(), line, &kind),
        Err(AppRefusal::ReadFault) => Vec::from_slice(alloc, b"read fault"),
        Err(AppRefusal::Memory) => Err(AllocError),
    }
}

fn is_told(
    alloc: Global,
    rows: &[(&str, &[u8])],
    failing: &[u64],
    expected: &[u8],
) -> Result<bool, AllocError> {
    let told = told(alloc, folder(alloc, rows, failing)?)?;
    Ok(told.as_slice() == expected)
}

const GONE: &[u8] = b"<?php
function gone() {
  echo 1;
  echo 2;
}
try { throw new Exception('e'); } catch (Exception $e) { echo $e->getLine(); }
";

#[test]
fn applications_in_a_folder(rt: HostRuntime) -> Result<(), Fail> {
    let alloc = rt.alloc();
    let ok = b"ok 1 files 1 functions 6 lines\n";
    assert!(rt;
        is_told(
            alloc,
            &[
                ("app/index.php", GONE),
                ("app/.git/a.php", b"<?php 'a"),
                ("app/a.css", b"b{}")
            ],
            &[],
            ok
        )?
    );
    let twice: &[u8] = b"<?php\nfunction a() {}\nfunction A() {}\n";
    assert!(rt;
        is_told(
            alloc,
            &[("app/index.php", twice)],
            &[],
            b"less: app index.php:3: twice a\n"
        )?
    );
    assert!(rt;
        is_told(
            alloc,
            &[("app/index.php", b"<?php goto a;")],
            &[],
            b"less: app index.php:1: parse leftout goto\n"
        )?
    );
    assert!(rt;
        is_told(
            alloc,
            &[("app/index.php", b"<?php\nfunction Less_Removed() {}")],
            &[],
            b"less: app index.php:2: reservedword Less_Removed\n"
        )?
    );
    assert!(rt;
        is_told(
            alloc,
            &[("app/a'.css", b""), ("app/index.php", b"<?php 'a")],
            &[],
            b"less: app :0: limit path\n"
        )?
    );
    assert!(rt; is_told(alloc, &[("app/index.php", b"")], &[0], b"read fault")?);
    assert!(rt;
        is_told(
            alloc,
            &[("app/a.css", b""), ("app/index.php", b"")],
            &[2],
            b"read fault"
        )?
    );
    Ok(())
}

// What is told of a guest's copy with one file.
fn told_of_copy(alloc: Global, text: &[u8]) -> Result<Vec<u8>, AllocError> {
    let mut folder = folder(alloc, &[("copies/guest/index.php", text)], &[])?;
    match load_copy_in(alloc, &mut folder, "copies/guest") {
        Ok(program) => accepted_text(alloc, program.files()),
        Err(CopyRefusal::At { file, line, kind }) => {
            copy_note(alloc, "guest", file.as_str(), line, kind)
        }
        Err(CopyRefusal::ReadFault) => Vec::from_slice(alloc, b"read fault"),
        Err(CopyRefusal::Memory) => Err(AllocError),
    }
}

fn is_told_of_copy(alloc: Global, text: &[u8], expected: &[u8]) -> Result<bool, AllocError> {
    let told = told_of_copy(alloc, text)?;
    Ok(told.as_slice() == expected)
}

#[test]
fn copies_in_a_folder(rt: HostRuntime) -> Result<(), Fail> {
    let alloc = rt.alloc();
    let gone = b"<?php\nfunction gone() {less_removed('function','index.php','gone');\n\n}";
    assert!(rt; is_told_of_copy(alloc, gone, b"ok 1 files 1 functions 4 lines\n")?);
    let other = b"<?php\nfunction f() {less_removed('function','index.php','g');}";
    assert!(rt; is_told_of_copy(alloc, other, b"less: copy guest index.php:2: placeholder\n")?);
    assert!(rt;
        is_told_of_copy(
            alloc,
            b"<?php 'a",
            b"less: copy guest index.php:1: badfile\n"
        )?
    );
    Ok(())
}
