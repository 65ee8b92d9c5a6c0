ghost use Rattle.std.specs.Prelude.{◌≡◌, [], ◌∷◌, IfOk};
ghost use Rattle.app_load.specs.Applications.{IsOnce};

use super::*;
use app_load::{AppFault, AppKind, CopyFault, CopyKind, LimitName};
use php_lexer::Tokens;
use php_parser::ParseFault;
use php_tree::file::FileTree;
use std::alloc::{AllocError, Global};
use std::test::Fail;

// A parser that has no memory: what is told before a text is parsed can be seen with it.
struct Wanting;

impl Parser for Wanting {
    fn parse(
        &self,
        _alloc: Global,
        _text: &[u8],
        _tokens: &Tokens<'_>,
    ) -> Result<FileTree, ParseFault> {
        Err(ParseFault::Memory)
    }
}

#[tactic(auto, using(crate::proofs::OneFile::one_file))]
fn one_file(alloc: Global, path: &str, text: &[u8]) -> Result<Vec<(String, Vec<u8>)>, AllocError>
    ensures { IfOk result (λ files. IsOnce files.items) }
{
    let path = String::from_str(alloc, path)?;
    let text = Vec::from_slice(alloc, text)?;
    let mut files = Vec::new(alloc);
    files.push((path, text))?;
    Ok(files)
}

// A number for each kind: 1 tokens, 2 tree, 3 the reserved word, 4 a name, 5 a jump, 6 a path, 7 a long file, 8 another limit.
fn number(kind: &AppKind) -> u8 {
    match kind {
        AppKind::Lex(_) => 1,
        AppKind::Parse(_) => 2,
        AppKind::ReservedWord(_) => 3,
        AppKind::Twice(_) => 4,
        AppKind::BreakDepth => 5,
        AppKind::Limit(LimitName::Path) => 6,
        AppKind::Limit(LimitName::File) => 7,
        AppKind::Limit(_) => 8,
    }
}

// The length of the file's path that is told, the line, and the kind's number; 0 where it is accepted, 9 for want of memory.
fn told(alloc: Global, path: &str, text: &[u8]) -> Result<(usize, u32, u8), Fail> {
    Ok(
        match load_app(alloc, &Wanting, one_file(alloc, path, text)?) {
            Ok(app) => (app.files().len(), 0, 0),
            Err(AppFault::At { file, line, kind }) => (file.len(), line, number(&kind)),
            Err(AppFault::Memory) => (0, 0, 9),
        },
    )
}

#[test]
fn an_application_is_judged_up_to_its_trees(rt: HostRuntime) -> Result<(), Fail> {
    let alloc = rt.alloc();
    let rows: [(&str, &[u8], (usize, u32, u8)); 6] = [
        ("a.css", b"b{}", (1, 0, 0)),
        ("a//b", b"", (0, 0, 6)),
        ("index.php", b"<?php\n'a", (9, 2, 1)),
        ("index.php", b"<?php\nfunction Less_Removed() {}", (9, 2, 3)),
        ("index.php", b"<?php ", (0, 0, 9)),
        ("index.php.txt", b"<?php 'a", (1, 0, 0)),
    ];
    for (path, text, expected) in &rows {
        let row = told(alloc, path, text)?;
        assert_eq!(rt; row.0, expected.0);
        assert_eq!(rt; row.1, expected.1);
        assert_eq!(rt; row.2, expected.2);
    }
    Ok(())
}

#[test]
fn a_file_has_at_most_one_mebibyte(rt: HostRuntime) -> Result<(), Fail> {
    let alloc = rt.alloc();
    let long = vec![in alloc; b'a'; 1_048_577]?;
    assert_eq!(rt; told(alloc, "index.php", long.as_slice())?.2, 7);
    assert_eq!(rt; told(alloc, "index.php", &long[1..])?.2, 9);
    assert_eq!(rt; told(alloc, "index.txt", long.as_slice())?.2, 0);
    Ok(())
}

// The same of a copy: 4 for a bad file, 5 for a word out of its place.
fn told_of_copy(alloc: Global, path: &str, text: &[u8]) -> Result<(usize, u32, u8), Fail> {
    Ok(
        match load_copy(alloc, &Wanting, one_file(alloc, path, text)?) {
            Ok(program) => (program.files().len(), 0, 0),
            Err(CopyFault::At { file, line, kind }) => {
                let number = if kind == CopyKind::BadFile { 4 } else { 5 };
                (file.len(), line, number)
            }
            Err(CopyFault::Memory) => (0, 0, 9),
        },
    )
}

#[test]
fn a_copy_may_have_the_word(rt: HostRuntime) -> Result<(), Fail> {
    let alloc = rt.alloc();
    let rows: [(&str, &[u8], (usize, u32, u8)); 4] = [
        ("a.css", b"b{}", (1, 0, 0)),
        ("a//b", b"", (0, 0, 4)),
        ("a.php", b"<?php\n'a", (5, 2, 4)),
        ("a.php", b"<?php less_removed;", (0, 0, 9)),
    ];
    for (path, text, expected) in &rows {
        let row = told_of_copy(alloc, path, text)?;
        assert_eq!(rt; row.0, expected.0);
        assert_eq!(rt; row.1, expected.1);
        assert_eq!(rt; row.2, expected.2);
    }
    Ok(())
}
