// Trees by hand.

use crate::expr::{Access, Expr};
use crate::file::FileTree;
use crate::name::{ClassName, FunName, MemberName, VarName};
use crate::stmt::Stmt;
use sqlite_items::{Boxed, Items};
use std::alloc::{AllocError, Global};
use std::test::Fail;

fn text(alloc: Global, bytes: &[u8]) -> Result<Items<u8>, AllocError> {
    Items::from_slice(alloc, bytes)
}

fn post(alloc: Global, head: Expr, access: Access<Expr>) -> Result<Expr, AllocError> {
    let mut accesses = Items::new(alloc);
    accesses.push(Access::Index(Expr::Int(1, 7)))?;
    accesses.push(access)?;
    Ok(Expr::Post(Boxed::new(alloc, head)?, accesses, 5))
}

fn static_property(alloc: Global) -> Result<Expr, AllocError> {
    let class = ClassName {
        text: text(alloc, b"A")?,
        line: 4,
    };
    let member = MemberName {
        text: text(alloc, b"x")?,
        line: 4,
    };
    Ok(Expr::StaticProperty(class, member, 4))
}

#[test]
fn a_place_is_a_root_with_indexes_and_properties(rt: HostRuntime) -> Result<(), Fail> {
    let alloc = rt.alloc();
    let name = MemberName {
        text: text(alloc, b"b")?,
        line: 4,
    };
    assert!(rt; Expr::Var(0, 3).is_place());
    assert!(rt; static_property(alloc)?.is_place());
    assert!(rt; post(alloc, Expr::Var(0, 3), Access::Property(name))?.is_place());
    let last = Access::Index(Expr::Int(2, 5));
    assert!(rt; post(alloc, static_property(alloc)?, last)?.is_place());
    Ok(())
}

#[test]
fn an_append_or_a_number_is_no_place(rt: HostRuntime) -> Result<(), Fail> {
    let alloc = rt.alloc();
    assert!(rt; !Expr::Int(1, 3).is_place());
    assert!(rt; !post(alloc, Expr::Var(0, 3), Access::Append)?.is_place());
    Ok(())
}

#[test]
fn a_call_of_a_method_is_no_place(rt: HostRuntime) -> Result<(), Fail> {
    let alloc = rt.alloc();
    let name = MemberName {
        text: text(alloc, b"m")?,
        line: 4,
    };
    let method = Access::Method(name, Items::new(alloc));
    assert!(rt; !post(alloc, Expr::Var(0, 3), method)?.is_place());
    Ok(())
}

#[test]
fn an_index_of_a_call_is_no_place(rt: HostRuntime) -> Result<(), Fail> {
    let alloc = rt.alloc();
    let name = FunName {
        text: text(alloc, b"f")?,
        line: 4,
    };
    let call = Expr::Call(name, Items::new(alloc), 5);
    let last = Access::Index(Expr::Int(2, 5));
    assert!(rt; !post(alloc, call, last)?.is_place());
    Ok(())
}

#[test]
fn a_node_has_the_line_of_its_first_token(rt: HostRuntime) -> Result<(), Fail> {
    let alloc = rt.alloc();
    let last = Access::Index(Expr::Int(2, 8));
    assert_eq!(rt; post(alloc, Expr::Var(0, 5), last)?.line(), 5);
    assert_eq!(rt; Expr::AssignReference(8, 9, 2).line(), 2);
    assert_eq!(rt; Expr::Exit(6).line(), 6);
    let value = Boxed::new(alloc, Expr::Var(0, 9))?;
    let each = Stmt::Foreach(value, Some(1), 2, Items::new(alloc), 9);
    assert_eq!(rt; each.line(), 9);
    Ok(())
}

#[test]
fn a_variable_is_found_by_its_number_from_0(rt: HostRuntime) -> Result<(), Fail> {
    let alloc = rt.alloc();
    let mut variables = Items::new(alloc);
    variables.push(VarName {
        text: text(alloc, b"user")?,
    })?;
    variables.push(VarName {
        text: text(alloc, b"this")?,
    })?;
    let file = FileTree {
        stmts: Items::new(alloc),
        functions: Items::new(alloc),
        variables,
    };
    let name = file.variable(1).ok_or("no name")?;
    assert_eq!(rt; name.text.as_slice(), b"this".as_slice());
    assert!(rt; file.variable(2).is_none());
    Ok(())
}
