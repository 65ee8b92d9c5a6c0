// Each call, with ample memory.
use crate::{ClassFault, ClassTable, MemberRef};
use php_tree::decl::{
    ClassConst, ClassDecl, ClassKind, Member, Modifiers, PropertyDecl, Signature, Visibility,
};
use php_tree::expr::Expr;
use php_tree::name::{ClassName, FunName, MemberName};
use sqlite_items::{Boxed, Items};
use std::alloc::{AllocError, Global};
use std::test::Fail;

fn class_name(alloc: Global, text: &[u8]) -> Result<ClassName, AllocError> {
    Ok(ClassName {
        text: Items::from_slice(alloc, text)?,
        line: 1,
    })
}

fn member_name(alloc: Global, text: &[u8]) -> Result<MemberName, AllocError> {
    Ok(MemberName {
        text: Items::from_slice(alloc, text)?,
        line: 1,
    })
}

fn modifiers(visibility: Visibility, is_static: bool) -> Modifiers {
    Modifiers {
        visibility: Some(visibility),
        is_static,
        is_abstract: false,
        is_final: false,
        is_var: false,
    }
}

// A method without a body.
fn bodiless(alloc: Global, name: &[u8]) -> Result<Member, AllocError> {
    let name = FunName {
        text: Items::from_slice(alloc, name)?,
        line: 1,
    };
    let signature = Signature {
        name,
        params: Items::new(alloc),
        result: None,
        line: 1,
    };
    Ok(Member::Bodiless(
        modifiers(Visibility::Public, false),
        Boxed::new(alloc, signature)?,
        1,
    ))
}

fn property(
    alloc: Global,
    visibility: Visibility,
    is_static: bool,
    name: &[u8],
) -> Result<Member, AllocError> {
    let mut properties = Items::new(alloc);
    properties.push(PropertyDecl {
        name: member_name(alloc, name)?,
        default: None,
    })?;
    Ok(Member::Properties(modifiers(visibility, is_static), properties, 1))
}

fn constant(alloc: Global, name: &[u8]) -> Result<Member, AllocError> {
    let mut constants = Items::new(alloc);
    constants.push(ClassConst {
        name: member_name(alloc, name)?,
        value: Boxed::new(alloc, Expr::Int(1, 1))?,
    })?;
    Ok(Member::Constants(constants, 1))
}

fn class(
    alloc: Global,
    kind: ClassKind,
    name: &[u8],
    parent: &[u8],
    interface: &[u8],
) -> Result<ClassDecl, AllocError> {
    let parent = if parent.is_empty() {
        None
    } else {
        Some(class_name(alloc, parent)?)
    };
    let mut interfaces = Items::new(alloc);
    if !interface.is_empty() {
        interfaces.push(class_name(alloc, interface)?)?;
    }
    Ok(ClassDecl {
        kind,
        name: class_name(alloc, name)?,
        parent,
        interfaces,
        members: Items::new(alloc),
        line: 1,
    })
}

// A class `Base` with a private property, a static one and a constant, and its `Child`: their numbers are 10 and 11.
fn with_base(alloc: Global) -> Result<ClassTable, ClassFault> {
    let mut table = ClassTable::new(alloc)?;
    let mut base = class(alloc, ClassKind::Plain, b"Base", b"", b"")?;
    base.members
        .push(property(alloc, Visibility::Private, false, b"hidden")?)?;
    base.members
        .push(property(alloc, Visibility::Protected, true, b"shared")?)?;
    base.members.push(constant(alloc, b"LIMIT")?)?;
    let _base = table.declare(alloc, &base)?;
    let child = class(alloc, ClassKind::Plain, b"Child", b"base", b"")?;
    let _child = table.declare(alloc, &child)?;
    Ok(table)
}

fn is_place(found: Result<MemberRef, ClassFault>, class: u32, member: u32) -> bool {
    match found {
        Ok(place) => place.class == class && place.member == member,
        Err(_) => false,
    }
}

fn is_unknown(found: Result<MemberRef, ClassFault>) -> bool {
    match found {
        Err(ClassFault::Unknown) => true,
        _ => false,
    }
}

fn is_hidden(found: Result<MemberRef, ClassFault>) -> bool {
    match found {
        Err(ClassFault::Hidden) => true,
        _ => false,
    }
}

// What a declaration beside `Base` and `Child` is refused for.
fn refusal(
    alloc: Global,
    kind: ClassKind,
    name: &[u8],
    parent: &[u8],
    interface: &[u8],
    member: Option<Member>,
) -> Result<Option<ClassFault>, ClassFault> {
    let mut table = with_base(alloc)?;
    let mut decl = class(alloc, kind, name, parent, interface)?;
    if let Some(member) = member {
        decl.members.push(member)?;
    }
    Ok(table.declare(alloc, &decl).err())
}

#[test]
fn the_throwables_are_there(rt: HostRuntime) -> Result<(), Fail> {
    let table = ClassTable::new(rt.alloc())?;
    assert!(rt; table.class_named(b"THROWABLE") == Some(0));
    assert!(rt; table.class_named(b"InvalidArgumentException") == Some(5));
    assert!(rt; table.class_named(b"Child").is_none());
    assert!(rt; table.parent(5) == Some(3));
    assert!(rt; table.class(9).is_some());
    assert!(rt; table.class(10).is_none());
    Ok(())
}

#[test]
fn throwables_are_instances(rt: HostRuntime) -> Result<(), Fail> {
    let table = ClassTable::new(rt.alloc())?;
    assert!(rt; table.instance_of(9, 2));
    assert!(rt; table.instance_of(9, 0));
    assert!(rt; !table.instance_of(9, 1));
    assert!(rt; is_place(table.method(9, b"getline", None), 2, 4));
    assert!(rt; is_unknown(table.method(9, b"getTrace", None)));
    Ok(())
}

#[test]
fn private_members_are_seen_in_their_class(rt: HostRuntime) -> Result<(), Fail> {
    let table = with_base(rt.alloc())?;
    assert!(rt; is_place(table.property(11, b"hidden", Some(10)), 10, 0));
    assert!(rt; is_hidden(table.property(11, b"hidden", Some(11))));
    assert!(rt; is_hidden(table.property(11, b"hidden", None)));
    assert!(rt; is_unknown(table.property(11, b"shared", Some(10))));
    Ok(())
}

#[test]
fn static_properties_are_those_of_their_class(rt: HostRuntime) -> Result<(), Fail> {
    let table = with_base(rt.alloc())?;
    assert!(rt; is_place(table.static_place(11, b"shared", Some(11)), 10, 1));
    assert!(rt; is_place(table.static_place(10, b"shared", Some(11)), 10, 1));
    assert!(rt; is_hidden(table.static_place(11, b"shared", Some(1))));
    Ok(())
}

#[test]
fn constants_are_told_apart_by_case(rt: HostRuntime) -> Result<(), Fail> {
    let table = with_base(rt.alloc())?;
    assert!(rt; is_place(table.constant(11, b"LIMIT"), 10, 2));
    assert!(rt; is_unknown(table.constant(11, b"limit")));
    Ok(())
}

#[test]
fn names_are_taken_once(rt: HostRuntime) -> Result<(), Fail> {
    let alloc = rt.alloc();
    let taken = refusal(alloc, ClassKind::Plain, b"CHILD", b"nowhere", b"", None)?;
    assert!(rt; taken == Some(ClassFault::Redeclared));
    let hidden = property(alloc, Visibility::Public, false, b"hidden")?;
    let again = refusal(
        alloc,
        ClassKind::Plain,
        b"Some",
        b"child",
        b"nowhere",
        Some(hidden),
    )?;
    assert!(rt; again == Some(ClassFault::Redeclared));
    let told = bodiless(alloc, b"GETMESSAGE")?;
    let told = refusal(
        alloc,
        ClassKind::Abstract,
        b"Some",
        b"TypeError",
        b"",
        Some(told),
    )?;
    assert!(rt; told == Some(ClassFault::Redeclared));
    Ok(())
}

#[test]
fn interfaces_want_bodies(rt: HostRuntime) -> Result<(), Fail> {
    let alloc = rt.alloc();
    let unknown = refusal(alloc, ClassKind::Plain, b"Some", b"child", b"nowhere", None)?;
    assert!(rt; unknown == Some(ClassFault::Unknown));
    let lacking = refusal(
        alloc,
        ClassKind::Plain,
        b"Some",
        b"child",
        b"Throwable",
        None,
    )?;
    assert!(rt; lacking == Some(ClassFault::Abstract));
    let finished = refusal(
        alloc,
        ClassKind::Abstract,
        b"Some",
        b"child",
        b"Throwable",
        None,
    )?;
    assert!(rt; finished.is_none());
    Ok(())
}
