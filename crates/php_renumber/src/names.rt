// Copies of names and texts.

ghost use Rattle.std.specs.Prelude.{◌≡◌, IfOk};

use php_tree::name::{ClassName, ConstName, FunName, MemberName};
use sqlite_items::Items;
use std::alloc::{AllocError, Global};

pub fn text(alloc: Global, bytes: &Items<u8>) -> Result<Items<u8>, AllocError>
    ensures { IfOk result (λ copy. copy ≡ bytes.now) }
{
    let copy = Items::from_slice(alloc, bytes.as_slice())?;
    Ok(copy)
}

pub fn fun_name(alloc: Global, name: &FunName) -> Result<FunName, AllocError>
    ensures { IfOk result (λ copy. copy ≡ name.now) }
{
    let text = text(alloc, &name.text)?;
    Ok(FunName {
        text,
        line: name.line,
    })
}

pub fn const_name(alloc: Global, name: &ConstName) -> Result<ConstName, AllocError>
    ensures { IfOk result (λ copy. copy ≡ name.now) }
{
    let text = text(alloc, &name.text)?;
    Ok(ConstName { text })
}

pub fn class_name(alloc: Global, name: &ClassName) -> Result<ClassName, AllocError>
    ensures { IfOk result (λ copy. copy ≡ name.now) }
{
    let text = text(alloc, &name.text)?;
    Ok(ClassName {
        text,
        line: name.line,
    })
}

pub fn member_name(alloc: Global, name: &MemberName) -> Result<MemberName, AllocError>
    ensures { IfOk result (λ copy. copy ≡ name.now) }
{
    let text = text(alloc, &name.text)?;
    Ok(MemberName {
        text,
        line: name.line,
    })
}
