// Tables of what hints make of values.
use crate::{given_by, taken};
use php_tree::decl::{Hint, Param};
use php_tree::expr::Expr;
use php_tree::name::{ClassName, ConstName};
use php_values::{Value, strict_eq};
use sqlite_items::{Boxed, Items};
use std::alloc::{AllocError, Global};

fn hint(alloc: Global, nullable: bool, name: &[u8]) -> Result<Hint, AllocError> {
    Ok(Hint {
        nullable,
        name: ClassName {
            text: Items::from_slice(alloc, name)?,
            line: 1,
        },
        line: 1,
    })
}

fn parameter(alloc: Global, name: &[u8], default: Option<&[u8]>) -> Result<Param, AllocError> {
    let default = match default {
        None => None,
        Some(word) => Some(Boxed::new(
            alloc,
            Expr::Constant(
                ConstName {
                    text: Items::from_slice(alloc, word)?,
                },
                1,
            ),
        )?),
    };
    Ok(Param {
        hint: Some(hint(alloc, false, name)?),
        by_reference: false,
        variable: 6,
        default,
        line: 1,
    })
}

// Whether two answers are the same value, or both are none.
fn same(alloc: Global, a: Option<Value>, b: Option<Value>) -> Result<bool, AllocError> {
    match (a, b) {
        (Some(a), Some(b)) => strict_eq(alloc, &a, &b),
        (None, None) => Ok(true),
        _ => Ok(false),
    }
}

// Whether a parameter with a hint makes one value of another.
fn takes(
    alloc: Global,
    name: &[u8],
    default: Option<&[u8]>,
    value: Value,
    wanted: Option<Value>,
) -> Result<bool, AllocError> {
    let parameter = parameter(alloc, name, default)?;
    let got = taken(alloc, &parameter, value)?;
    same(alloc, got, wanted)
}

#[test]
fn parameters_convert_or_refuse(rt: HostRuntime) -> Result<(), AllocError> {
    let alloc = rt.alloc();
    assert!(rt; takes(alloc, b"INT", None, Value::Bool(true), Some(Value::Int(1)))?);
    assert!(rt; takes(alloc, b"int", None, Value::Null, None)?);
    assert!(rt;
        takes(
            alloc,
            b"bool",
            Some(b"NULL"),
            Value::Null,
            Some(Value::Null)
        )?
    );
    assert!(rt; takes(alloc, b"Task", None, Value::Int(1), None)?);
    Ok(())
}

// Whether a `return` gives one value for another.
fn gives(
    alloc: Global,
    name: &[u8],
    value: Option<Value>,
    wanted: Option<Value>,
) -> Result<bool, AllocError> {
    let hint = hint(alloc, false, name)?;
    let got = given_by(alloc, Some(&hint), value)?;
    same(alloc, got, wanted)
}

#[test]
fn a_return_gives_what_its_hint_allows(rt: HostRuntime) -> Result<(), AllocError> {
    let alloc = rt.alloc();
    assert!(rt; gives(alloc, b"void", None, Some(Value::Null))?);
    assert!(rt; gives(alloc, b"void", Some(Value::Null), None)?);
    assert!(rt; gives(alloc, b"int", Some(Value::Bool(true)), Some(Value::Int(1)))?);
    Ok(())
}
