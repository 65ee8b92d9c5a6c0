use super::*;
use app_load::{AppKind, CopyKind, LimitName};
use php_lexer::{FormName, LexKind};
use php_parser::{LeftOutName, ParseKind};
use sqlite_items::Items;
use std::alloc::{AllocError, Global};
use std::test::Fail;

fn is_same(note: &[u8], expected: &[u8]) -> bool {
    note == expected
}

// Whether the note of an application's fault is this one.
fn is_told(alloc: Global, line: u32, kind: &AppKind, expected: &[u8]) -> Result<bool, AllocError> {
    let note = app_note(alloc, "index.php", line, kind)?;
    Ok(is_same(note.as_slice(), expected))
}

#[test]
fn faults_of_applications(rt: HostRuntime) -> Result<(), Fail> {
    let alloc = rt.alloc();
    let twice = AppKind::Twice(Items::from_slice(alloc, b"a")?);
    assert!(rt; is_told(alloc, 3, &twice, b"less: app index.php:3: twice a\n")?);
    let word = AppKind::ReservedWord(Items::from_slice(alloc, b"Less_Removed")?);
    assert!(rt;
        is_told(
            alloc,
            2,
            &word,
            b"less: app index.php:2: reservedword Less_Removed\n"
        )?
    );
    let text = Items::from_slice(alloc, b"goto")?;
    let left_out = AppKind::Parse(ParseKind::LeftOut(LeftOutName { text }));
    assert!(rt;
        is_told(
            alloc,
            1,
            &left_out,
            b"less: app index.php:1: parse leftout goto\n"
        )?
    );
    let form = AppKind::Lex(LexKind::Form(FormName::Float));
    assert!(rt;
        is_told(
            alloc,
            10,
            &form,
            b"less: app index.php:10: lex form float\n"
        )?
    );
    let jump = AppKind::BreakDepth;
    assert!(rt;
        is_told(
            alloc,
            4294967295,
            &jump,
            b"less: app index.php:4294967295: breakdepth\n"
        )?
    );
    Ok(())
}

#[test]
fn limits_of_the_whole(rt: HostRuntime) -> Result<(), Fail> {
    let alloc = rt.alloc();
    let note = app_note(alloc, "", 0, &AppKind::Limit(LimitName::Total))?;
    assert!(rt; is_same(note.as_slice(), b"less: app :0: limit total\n"));
    let note = copy_note(alloc, "guest", "", 0, CopyKind::BadFile)?;
    assert!(rt; is_same(note.as_slice(), b"less: copy guest :0: badfile\n"));
    let note = copy_note(alloc, "guest", "index.php", 2, CopyKind::Placeholder)?;
    assert!(rt;
        is_same(
            note.as_slice(),
            b"less: copy guest index.php:2: placeholder\n"
        )
    );
    Ok(())
}

#[test]
fn an_application_without_files(rt: HostRuntime) -> Result<(), Fail> {
    let text = accepted_text(rt.alloc(), &[])?;
    assert!(rt; is_same(text.as_slice(), b"ok 0 files 0 functions 0 lines\n"));
    Ok(())
}
