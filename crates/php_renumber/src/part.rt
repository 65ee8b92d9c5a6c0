// Copies of what holds no statement.

ghost use Rattle.std.specs.Prelude.{◌≡◌, IfOk, map};
ghost use Rattle.php_tree.specs.ExpressionOf.{expression_of, expression_or_none};
ghost use Rattle.php_tree.specs.StatementOf.{parameter_of, head_of, static_of, constant_of, class_constant_of, property_of};
ghost use Rattle.php_tree.specs.Renamed.{renamed, renamed_option, renamed_var, renamed_parameter, renamed_head, renamed_statics, renamed_constants, renamed_defaults};
ghost use Rattle.php_renumber.specs.Numbers.{number_in};

use crate::expression::boxed;
use crate::names::{class_name, const_name, fun_name, member_name, text};
use crate::numbers::{Numbers, number};
use php_tree::decl::{ClassConst, Hint, Param, PropertyDecl, Signature};
use php_tree::expr::Expr;
use php_tree::name::{ClassName, FunName};
use php_tree::stmt::{ConstDecl, StaticVar};
use sqlite_items::{Boxed, Items};
use std::alloc::{AllocError, Global};

pub fn variable_or_none(numbers: &Numbers, variable: Option<u32>) -> Option<u32>
    ensures { result ≡ renamed_var (number_in numbers.now) variable }
{
    match variable {
        Some(variable) => Some(number(numbers, variable)),
        None => None,
    }
}

pub fn variables(alloc: Global, numbers: &Numbers, all: &[u32]) -> Result<Items<u32>, AllocError>
    ensures { IfOk result (λ copies. copies ≡ map (number_in numbers.now) all.now) }
{
    let mut copies = Items::new(alloc);
    for one in all {
        copies.push(number(numbers, *one))?;
    }
    Ok(copies)
}

pub fn class_names(alloc: Global, all: &[ClassName]) -> Result<Items<ClassName>, AllocError>
    ensures { IfOk result (λ copies. copies ≡ all.now) }
{
    let mut copies = Items::new(alloc);
    for one in all {
        let copy = class_name(alloc, one)?;
        copies.push(copy)?;
    }
    Ok(copies)
}

pub fn class_name_or_none(
    alloc: Global,
    name: &Option<ClassName>,
) -> Result<Option<ClassName>, AllocError>
    ensures { IfOk result (λ copy. copy ≡ name.now) }
{
    match name {
        Some(name) => Ok(Some(class_name(alloc, name)?)),
        None => Ok(None),
    }
}

pub fn text_or_none(
    alloc: Global,
    bytes: &Option<Items<u8>>,
) -> Result<Option<Items<u8>>, AllocError>
    ensures { IfOk result (λ copy. copy ≡ bytes.now) }
{
    match bytes {
        Some(bytes) => Ok(Some(text(alloc, bytes)?)),
        None => Ok(None),
    }
}

pub fn hint_or_none(alloc: Global, hint: &Option<Hint>) -> Result<Option<Hint>, AllocError>
    ensures { IfOk result (λ copy. copy ≡ hint.now) }
{
    match hint {
        Some(hint) => {
            let name = class_name(alloc, &hint.name)?;
            Ok(Some(Hint {
                nullable: hint.nullable,
                name,
                line: hint.line,
            }))
        }
        None => Ok(None),
    }
}

pub fn default(
    alloc: Global,
    numbers: &Numbers,
    e: &Option<Boxed<Expr>>,
) -> Result<Option<Boxed<Expr>>, AllocError>
    ensures { IfOk result (λ copy. expression_or_none copy ≡ renamed_option (number_in numbers.now) (expression_or_none e.now)) }
{
    match e {
        Some(e) => Ok(Some(boxed(alloc, numbers, e)?)),
        None => Ok(None),
    }
}

fn param(alloc: Global, numbers: &Numbers, param: &Param) -> Result<Param, AllocError>
    ensures { IfOk result (λ copy. parameter_of copy ≡ renamed_parameter (number_in numbers.now) (parameter_of param.now)) }
{
    let hint = hint_or_none(alloc, &param.hint)?;
    let default = default(alloc, numbers, &param.default)?;
    Ok(Param {
        hint,
        by_reference: param.by_reference,
        variable: number(numbers, param.variable),
        default,
        line: param.line,
    })
}

pub fn params(alloc: Global, numbers: &Numbers, all: &[Param]) -> Result<Items<Param>, AllocError>
    ensures { IfOk result (λ copies. map parameter_of copies ≡ map (renamed_parameter (number_in numbers.now)) (map parameter_of all.now)) }
{
    let mut copies = Items::new(alloc);
    for one in all {
        let copy = param(alloc, numbers, one)?;
        copies.push(copy)?;
    }
    Ok(copies)
}

/// What a function says before its body.
pub fn head(
    alloc: Global,
    numbers: &Numbers,
    name: &FunName,
    params_of: &[Param],
    gives: &Option<Hint>,
    line: u32,
) -> Result<Signature, AllocError>
    ensures { IfOk result (λ copy. head_of copy ≡ renamed_head (number_in numbers.now) (record { name = name.now; parameters = map parameter_of params_of.now; gives = gives.now; line = line })) }
{
    let name = fun_name(alloc, name)?;
    let params = params(alloc, numbers, params_of)?;
    let gives = hint_or_none(alloc, gives)?;
    Ok(Signature {
        name,
        params,
        result: gives,
        line,
    })
}

pub fn signature(
    alloc: Global,
    numbers: &Numbers,
    head_in: &Signature,
) -> Result<Signature, AllocError>
    ensures { IfOk result (λ copy. head_of copy ≡ renamed_head (number_in numbers.now) (head_of head_in.now)) }
{
    let params = head_in.params.as_slice();
    let copy = head(
        alloc,
        numbers,
        &head_in.name,
        params,
        &head_in.result,
        head_in.line,
    )?;
    Ok(copy)
}

fn static_var(alloc: Global, numbers: &Numbers, one: &StaticVar) -> Result<StaticVar, AllocError>
    ensures { IfOk result (λ copy. static_of copy ≡ (number_in numbers.now one.now.variable, renamed_option (number_in numbers.now) (expression_or_none one.now.default))) }
{
    let default = default(alloc, numbers, &one.default)?;
    Ok(StaticVar {
        variable: number(numbers, one.variable),
        default,
    })
}

pub fn static_vars(
    alloc: Global,
    numbers: &Numbers,
    all: &[StaticVar],
) -> Result<Items<StaticVar>, AllocError>
    ensures { IfOk result (λ copies. map static_of copies ≡ renamed_statics (number_in numbers.now) (map static_of all.now)) }
{
    let mut copies = Items::new(alloc);
    for one in all {
        let copy = static_var(alloc, numbers, one)?;
        copies.push(copy)?;
    }
    Ok(copies)
}

fn const_decl(alloc: Global, numbers: &Numbers, one: &ConstDecl) -> Result<ConstDecl, AllocError>
    ensures { IfOk result (λ copy. constant_of copy ≡ (one.now.name, renamed (number_in numbers.now) (expression_of one.now.value))) }
{
    let name = const_name(alloc, &one.name)?;
    let value = boxed(alloc, numbers, &one.value)?;
    Ok(ConstDecl { name, value })
}

pub fn const_decls(
    alloc: Global,
    numbers: &Numbers,
    all: &[ConstDecl],
) -> Result<Items<ConstDecl>, AllocError>
    ensures { IfOk result (λ copies. map constant_of copies ≡ renamed_constants (number_in numbers.now) (map constant_of all.now)) }
{
    let mut copies = Items::new(alloc);
    for one in all {
        let copy = const_decl(alloc, numbers, one)?;
        copies.push(copy)?;
    }
    Ok(copies)
}

fn class_const(alloc: Global, numbers: &Numbers, one: &ClassConst) -> Result<ClassConst, AllocError>
    ensures { IfOk result (λ copy. class_constant_of copy ≡ (one.now.name, renamed (number_in numbers.now) (expression_of one.now.value))) }
{
    let name = member_name(alloc, &one.name)?;
    let value = boxed(alloc, numbers, &one.value)?;
    Ok(ClassConst { name, value })
}

pub fn class_consts(
    alloc: Global,
    numbers: &Numbers,
    all: &[ClassConst],
) -> Result<Items<ClassConst>, AllocError>
    ensures { IfOk result (λ copies. map class_constant_of copies ≡ renamed_constants (number_in numbers.now) (map class_constant_of all.now)) }
{
    let mut copies = Items::new(alloc);
    for one in all {
        let copy = class_const(alloc, numbers, one)?;
        copies.push(copy)?;
    }
    Ok(copies)
}

fn property(
    alloc: Global,
    numbers: &Numbers,
    one: &PropertyDecl,
) -> Result<PropertyDecl, AllocError>
    ensures { IfOk result (λ copy. property_of copy ≡ (one.now.name, renamed_option (number_in numbers.now) (expression_or_none one.now.default))) }
{
    let name = member_name(alloc, &one.name)?;
    let default = default(alloc, numbers, &one.default)?;
    Ok(PropertyDecl { name, default })
}

pub fn properties(
    alloc: Global,
    numbers: &Numbers,
    all: &[PropertyDecl],
) -> Result<Items<PropertyDecl>, AllocError>
    ensures { IfOk result (λ copies. map property_of copies ≡ renamed_defaults (number_in numbers.now) (map property_of all.now)) }
{
    let mut copies = Items::new(alloc);
    for one in all {
        let copy = property(alloc, numbers, one)?;
        copies.push(copy)?;
    }
    Ok(copies)
}
