// Functions of a file, with ample memory.
use crate::{hoist, is_declaration};
use php_tables::Functions;
use php_tree::decl::FunDecl;
use php_tree::file::Span;
use php_tree::name::FunName;
use php_tree::stmt::Stmt;
use sqlite_items::{Boxed, Items};
use std::alloc::{AllocError, Global};

fn function(alloc: Global, line: u32) -> Result<Stmt, AllocError> {
    let declaration = FunDecl {
        name: FunName {
            text: Items::from_slice(alloc, b"Tasks_Of")?,
            line,
        },
        params: Items::new(alloc),
        result: None,
        body: Items::new(alloc),
        body_span: Span { from: 0, to: 0 },
        line,
    };
    Ok(Stmt::Function(Boxed::new(alloc, declaration)?, line))
}

// The line of the second of two functions of one name.
fn refused(alloc: Global, path: &Items<u8>, file: &[Stmt]) -> Result<Option<u32>, AllocError> {
    let mut functions = Functions::new(alloc);
    hoist(alloc, path, file, &mut functions)
}

#[test]
fn a_name_is_declared_once(rt: HostRuntime) -> Result<(), AllocError> {
    let alloc = rt.alloc();
    let path = Items::from_slice(alloc, b"a.php")?;
    let mut file = Items::new(alloc);
    file.push(function(alloc, 2)?)?;
    file.push(Stmt::Empty(5))?;
    file.push(function(alloc, 9)?)?;
    assert!(rt; refused(alloc, &path, file.as_slice())? == Some(9));
    assert!(rt; !is_declaration(&Stmt::Empty(5)));
    Ok(())
}
