// Each call once, with ample memory.
use crate::{Entered, Function, Functions, PathTable};
use php_tree::decl::FunDecl;
use php_tree::file::Span;
use php_tree::name::FunName;
use sqlite_items::{Boxed, Items};
use std::alloc::{AllocError, Global};

fn declaration(alloc: Global, name: &[u8]) -> Result<Boxed<FunDecl>, AllocError> {
    let name = FunName {
        text: Items::from_slice(alloc, name)?,
        line: 1,
    };
    let declaration = Boxed::new(
        alloc,
        FunDecl {
            name,
            params: Items::new(alloc),
            result: None,
            body: Items::new(alloc),
            body_span: Span { from: 0, to: 0 },
            line: 1,
        },
    )?;
    Ok(declaration)
}

// Whether a function is found under a name after it was declared, and before it.
fn found(alloc: Global, function: Function<'_>, name: &[u8]) -> Result<(bool, bool), AllocError> {
    let mut functions = Functions::new(alloc);
    let before = functions.get(name).is_some();
    functions.add(alloc, function)?;
    Ok((functions.get(name).is_some(), before))
}

#[test]
fn functions_are_found_in_lower_case(rt: HostRuntime) -> Result<(), AllocError> {
    let alloc = rt.alloc();
    let path = Items::from_slice(alloc, b"lib/db.php")?;
    let declaration = declaration(alloc, b"Tasks_Of")?;
    let function = Function {
        path: &path,
        declaration: &declaration,
    };
    assert!(rt; found(alloc, function, b"tasks_of")? == (true, false));
    assert!(rt; found(alloc, function, b"Tasks_Of")? == (false, false));
    Ok(())
}

#[test]
fn paths_have_numbers(rt: HostRuntime) -> Result<(), AllocError> {
    let alloc = rt.alloc();
    let mut paths = PathTable::new(alloc);
    for path in [b"a.php", b"b.php"] {
        if paths.number(path).is_none() {
            paths.add(alloc, path)?;
        }
    }
    assert!(rt; paths.number(b"a.php") == Some(0));
    assert!(rt; paths.number(b"b.php") == Some(1));
    assert!(rt; paths.number(b"c.php").is_none());
    assert!(rt; paths.len() == 2);
    Ok(())
}

#[test]
fn files_are_noted_as_often_as_they_are_entered(rt: HostRuntime) -> Result<(), AllocError> {
    let alloc = rt.alloc();
    let path = Items::from_slice(alloc, b"a.php")?;
    let mut entered = Entered::new(alloc);
    assert!(rt; !entered.has(b"a.php"));
    entered.push(alloc, &path)?;
    entered.push(alloc, &path)?;
    assert!(rt; entered.has(b"a.php"));
    assert!(rt; !entered.has(b"b.php"));
    Ok(())
}
