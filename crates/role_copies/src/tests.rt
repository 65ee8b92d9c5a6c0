ghost use Rattle.std.specs.Prelude.{◌≡◌, is_some};
ghost use Rattle.app_load.specs.Files.{is_php};
ghost use Rattle.app_files.specs.FileSets.{HasFunctions};

use super::*;
use app_files::{App, FileSet, Program, is_php};
use app_load::AppFile;
use php_tree::file::FileTree;
use request_map::{Route, WebRequest, request_of};
use role_routing::Roles;
use sqlite_items::Items;
use std::alloc::{AllocError, Global};
use std::test::Fail;

// An empty tree for a PHP file.
fn tree_of(alloc: Global, path: &str) -> Option<FileTree>
    ensures tree { is_some result ≡ is_php path.now }
    ensures functions { HasFunctions result }
{
    if is_php(path.as_bytes()) {
        Some(FileTree {
            stmts: Items::new(alloc),
            functions: Items::new(alloc),
            variables: Items::new(alloc),
        })
    } else {
        None
    }
}

// The one file of an application or a copy.
fn one_file(alloc: Global, path: &str, text: &[u8]) -> Result<FileSet, AllocError> {
    let file = AppFile {
        path: String::from_str(alloc, path)?,
        text: Vec::from_slice(alloc, text)?,
        tree: tree_of(alloc, path),
    };
    let mut files = Vec::new(alloc);
    files.push(file)?;
    Ok(FileSet::new(files))
}

fn program(alloc: Global, path: &str, text: &[u8]) -> Result<Program, AllocError> {
    let files = one_file(alloc, path, text)?;
    let program = Program::new(alloc, files)?;
    Ok(program)
}

// Copies for two roles, each with one file.
fn two(
    alloc: Global,
    first: (&str, &[u8]),
    second: (&str, &[u8]),
) -> Result<Result<Copies, CopiesFault>, AllocError> {
    let mut programs = Vec::new(alloc);
    programs.push(program(alloc, first.0, first.1)?)?;
    programs.push(program(alloc, second.0, second.1)?)?;
    Ok(copies_of(alloc, programs))
}

fn differ(alloc: Global, first: (&str, &[u8]), second: (&str, &[u8])) -> Result<bool, AllocError> {
    Ok(matches!(two(alloc, first, second)?, Err(CopiesFault::Differ)))
}

fn request(alloc: Global, bytes: &[u8]) -> Result<WebRequest, Fail> {
    Ok(request_of(alloc, bytes).ok().ok_or("no request")?)
}

#[test]
fn copies_differ_in_the_texts_of_php_files_alone(rt: HostRuntime) -> Result<(), Fail> {
    let alloc = rt.alloc();
    assert!(rt; !differ(alloc, ("a.php", b"1"), ("a.php", b"2"))?);
    assert!(rt; !differ(alloc, ("a.css", b"1"), ("a.css", b"1"))?);
    assert!(rt; differ(alloc, ("a.css", b"1"), ("a.css", b"2"))?);
    assert!(rt; differ(alloc, ("a.php", b"1"), ("b.php", b"1"))?);
    assert!(rt; differ(alloc, ("a.css", b""), ("a.php", b""))?);
    Ok(())
}

#[test]
fn a_request_asks_for_a_file_of_the_copies(rt: HostRuntime) -> Result<(), Fail> {
    let alloc = rt.alloc();
    let page = request(alloc, b"GET /?a HTTP/1.0\r\n\r\n")?;
    let sheet = request(alloc, b"GET /a%2Ecss HTTP/1.0\r\n\r\n")?;
    let Ok(pages) = two(alloc, ("index.php", b"1"), ("index.php", b"2"))? else {
        assert!(rt; false);
        return Ok(());
    };
    match route(alloc, &pages, &page)? {
        Route::Script(path) => assert_eq!(rt; path.as_str(), "index.php"),
        _ => assert!(rt; false),
    }
    assert!(rt; matches!(route(alloc, &pages, &sheet)?, Route::NotFound));
    let Ok(sheets) = two(alloc, ("a.css", b"b{}"), ("a.css", b"b{}"))? else {
        assert!(rt; false);
        return Ok(());
    };
    assert!(rt; matches!(route(alloc, &sheets, &sheet)?, Route::Static(0)));
    assert!(rt; matches!(route(alloc, &sheets, &page)?, Route::NotFound));
    assert_eq!(rt; sheets.statics.len(), 1);
    Ok(())
}

#[test]
fn an_application_is_a_copy_for_each_role(rt: HostRuntime) -> Result<(), Fail> {
    let alloc = rt.alloc();
    let roles = Roles::guest_only(alloc)?;
    let app = App::new(alloc, one_file(alloc, "a.php", b"1")?)?;
    let copies = unchanged_copies(alloc, &app, &roles)?;
    assert!(rt; copies.has_each(&roles));
    assert_eq!(rt; copies.program(1).files().len(), 1);
    assert!(rt; copies.statics.is_empty());
    Ok(())
}
