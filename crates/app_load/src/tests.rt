use super::*;
use crate::judge::{FileFault, Setting, check_placeholders, check_rules, read_tokens};
use php_tree::file::FileTree;
use php_tree::stmt::Stmt;
use sqlite_items::Items;
use std::alloc::{AllocError, Global};
use std::test::Fail;

// The line that is told, and a number for the kind: 1 tokens, 2 the reserved word, 3 all else; 0 where nothing is told.
fn told<T: Drop>(answer: Result<T, FileFault>) -> (u32, u8) {
    match answer {
        Ok(_) => (0, 0),
        Err(FileFault::At { line, kind }) => match kind {
            AppKind::Lex(_) => (line, 1),
            AppKind::ReservedWord(_) => (line, 2),
            _ => (line, 3),
        },
        Err(FileFault::Stray { line }) => (line, 4),
        Err(FileFault::Memory) => (0, 5),
    }
}

#[test]
fn the_reserved_word_is_refused_in_an_application_alone(rt: HostRuntime) -> Result<(), Fail> {
    let alloc = rt.alloc();
    let rows: [(&[u8], (u32, u8), (u32, u8)); 6] = [
        (b"<?php\nfunction Less_Removed() {}", (2, 2), (0, 0)),
        (b"<?php echo 'less_removed';", (0, 0), (0, 0)),
        (b"<?php\n\n1.5;", (3, 1), (3, 1)),
        (b"<?php $a->less_removed;", (1, 2), (0, 0)),
        (b"less_removed", (0, 0), (0, 0)),
        (b"", (0, 0), (0, 0)),
    ];
    for (text, application, copy) in &rows {
        let one = told(read_tokens(alloc, Setting::Application, text));
        assert_eq!(rt; one.0, application.0);
        assert_eq!(rt; one.1, application.1);
        let other = told(read_tokens(alloc, Setting::Copy, text));
        assert_eq!(rt; other.0, copy.0);
        assert_eq!(rt; other.1, copy.1);
    }
    Ok(())
}

fn one_statement(alloc: Global, statement: Stmt) -> Result<FileTree, AllocError> {
    let mut stmts = Items::new(alloc);
    stmts.push(statement)?;
    Ok(FileTree {
        stmts,
        functions: Items::new(alloc),
        variables: Items::new(alloc),
    })
}

#[test]
fn a_jump_wants_a_loop(rt: HostRuntime) -> Result<(), Fail> {
    let alloc = rt.alloc();
    let jump = one_statement(alloc, Stmt::Break(1, 7))?;
    assert_eq!(rt; told(check_rules(alloc, &jump)).0, 7);
    let none = one_statement(alloc, Stmt::Empty(7))?;
    assert_eq!(rt; told(check_rules(alloc, &none)).1, 0);
    Ok(())
}

#[test]
fn a_stray_word_is_refused_in_a_copy(rt: HostRuntime) -> Result<(), Fail> {
    let alloc = rt.alloc();
    let text: &[u8] = b"<?php\n\nless_removed('file','b.php');\n";
    let tree = one_statement(alloc, Stmt::Empty(1))?;
    match read_tokens(alloc, Setting::Copy, text) {
        Ok(tokens) => {
            let stray = check_placeholders(alloc, Setting::Copy, b"a.php", text, &tokens, &tree);
            let (line, kind) = told(stray);
            assert_eq!(rt; line, 3);
            assert_eq!(rt; kind, 4);
        }
        Err(_) => assert_eq!(rt; 0, 1),
    }
    Ok(())
}
