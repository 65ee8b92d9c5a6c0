use super::*;
use app_load::AppFile;
use php_tree::expr::Expr;
use php_tree::file::FileTree;
use php_tree::stmt::Stmt;
use sqlite_items::Items;
use std::alloc::{AllocError, Global};
use std::test::Fail;

// `Hi <?php echo 'x', 'y'; ?>!`, where one more text is left out or in.
fn statements(alloc: Global, number: bool) -> Result<Items<Stmt>, AllocError> {
    let mut texts = Items::new(alloc);
    texts.push(Expr::Text(Items::from_slice(alloc, b"x")?, 1))?;
    if number {
        texts.push(Expr::Int(1, 1))?;
    }
    texts.push(Expr::Text(Items::from_slice(alloc, b"y")?, 1))?;
    let mut statements = Items::new(alloc);
    statements.push(Stmt::Inline(Items::from_slice(alloc, b"Hi ")?, 1))?;
    statements.push(Stmt::Echo(texts, 1))?;
    statements.push(Stmt::Empty(1))?;
    statements.push(Stmt::Inline(Items::from_slice(alloc, b"!")?, 1))?;
    Ok(statements)
}

// One file with these statements.
fn file(alloc: Global, path: &str, number: bool) -> Result<Vec<AppFile>, AllocError> {
    let tree = FileTree {
        stmts: statements(alloc, number)?,
        functions: Items::new(alloc),
        variables: Items::new(alloc),
    };
    let mut files = Vec::new(alloc);
    files.push(AppFile {
        path: String::from_str(alloc, path)?,
        text: Vec::new(alloc),
        tree: Some(tree),
    })?;
    Ok(files)
}

// What a run of the file put out within a budget, `None` where it is no plain page.
fn output(
    alloc: Global,
    path: &str,
    number: bool,
    budget: u32,
) -> Result<Option<Vec<u8>>, AllocError> {
    let files = file(alloc, path, number)?;
    match run_files(alloc, &files, budget)? {
        Some(run) => Ok(Some(Vec::from_slice(alloc, run.output())?)),
        None => Ok(None),
    }
}

// Whether the file is played and puts out these bytes.
fn puts_out(alloc: Global, budget: u32, bytes: &[u8]) -> Result<bool, AllocError> {
    match output(alloc, "index.php", false, budget)? {
        Some(output) => Ok(output.as_slice() == bytes),
        None => Ok(false),
    }
}

#[test]
fn a_page_is_run_until_its_budget_is_spent(rt: HostRuntime) -> Result<(), Fail> {
    let alloc = rt.alloc();
    assert!(rt; puts_out(alloc, 0, b"")?);
    assert!(rt; puts_out(alloc, 1, b"Hi ")?);
    assert!(rt; puts_out(alloc, 2, b"Hi xy")?);
    assert!(rt; puts_out(alloc, 3, b"Hi xy!")?);
    Ok(())
}

#[test]
fn other_files_are_no_page(rt: HostRuntime) -> Result<(), Fail> {
    let alloc = rt.alloc();
    assert!(rt; output(alloc, "index.php", true, 9)?.is_none());
    assert!(rt; output(alloc, "other.php", false, 9)?.is_none());
    assert!(rt; run_files(alloc, &[], 9)?.is_none());
    Ok(())
}
