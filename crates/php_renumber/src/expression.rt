// Copies of expressions.
#![tactic(auto, using(php_tree::proofs::Expressions::expressions))]

ghost use Rattle.std.specs.Prelude.{◌≡◌, IfOk};
ghost use Rattle.php_tree.specs.ExpressionOf.{key_of, expression_of, expressions_of, parts_of, items_of, accesses_of, links_of, branches_of};
ghost use Rattle.php_tree.specs.Renamed.{renamed, renamed_key, renamed_all, renamed_parts, renamed_items, renamed_accesses, renamed_links, renamed_branches};
ghost use Rattle.php_renumber.specs.Numbers.{number_in};
ghost use Rattle.php_renumber.specs.Copies.{IsPart, IsItem, IsAccess, IsLink, IsBranch};

use crate::names::{class_name, const_name, fun_name, member_name, text};
use crate::numbers::{Numbers, number};
use php_tree::expr::{Access, Branch, ChainOp, Expr, Item, QuoteKey, QuotePart};
use sqlite_items::{Boxed, Items};
use std::alloc::{AllocError, Global};

#[cycle(expressions)]
pub fn boxed(alloc: Global, numbers: &Numbers, e: &Boxed<Expr>) -> Result<Boxed<Expr>, AllocError>
    ensures { IfOk result (λ d. expression_of d ≡ renamed (number_in numbers.now) (expression_of e.now)) }
{
    let copy = expr(alloc, numbers, e.get())?;
    let copy = Boxed::new(alloc, copy)?;
    Ok(copy)
}

/// Expressions with other numbers for their variables.
#[cycle(expressions)]
pub fn exprs(alloc: Global, numbers: &Numbers, es: &[Expr]) -> Result<Items<Expr>, AllocError>
    ensures { IfOk result (λ ds. expressions_of ds ≡ renamed_all (number_in numbers.now) (expressions_of es.now)) }
{
    let mut copies = Items::new(alloc);
    for e in es {
        let copy = expr(alloc, numbers, e)?;
        copies.push(copy)?;
    }
    Ok(copies)
}

fn key(alloc: Global, numbers: &Numbers, key: &QuoteKey) -> Result<QuoteKey, AllocError>
    ensures { IfOk result (λ copy. key_of copy ≡ renamed_key (number_in numbers.now) (key_of key.now)) }
{
    match key {
        QuoteKey::Int(value) => Ok(QuoteKey::Int(*value)),
        QuoteKey::Text(bytes) => Ok(QuoteKey::Text(text(alloc, bytes)?)),
        QuoteKey::Var(variable) => Ok(QuoteKey::Var(number(numbers, *variable))),
    }
}

#[cycle(expressions)]
fn part(
    alloc: Global,
    numbers: &Numbers,
    part: &QuotePart<Expr>,
) -> Result<QuotePart<Expr>, AllocError>
    ensures { IfOk result (λ copy. IsPart (number_in numbers.now) part.now copy) }
{
    match part {
        QuotePart::Bytes(bytes) => Ok(QuotePart::Bytes(text(alloc, bytes)?)),
        QuotePart::Var(variable) => Ok(QuotePart::Var(number(numbers, *variable))),
        QuotePart::Index(variable, at) => {
            let at = key(alloc, numbers, at)?;
            Ok(QuotePart::Index(number(numbers, *variable), at))
        }
        QuotePart::Property(variable, name) => {
            let name = member_name(alloc, name)?;
            Ok(QuotePart::Property(number(numbers, *variable), name))
        }
        QuotePart::Embedded(e) => Ok(QuotePart::Embedded(expr(alloc, numbers, e)?)),
    }
}

#[cycle(expressions)]
fn parts(
    alloc: Global,
    numbers: &Numbers,
    all: &[QuotePart<Expr>],
) -> Result<Items<QuotePart<Expr>>, AllocError>
    ensures { IfOk result (λ copies. parts_of copies ≡ renamed_parts (number_in numbers.now) (parts_of all.now)) }
{
    let mut copies = Items::new(alloc);
    for one in all {
        let copy = part(alloc, numbers, one)?;
        copies.push(copy)?;
    }
    Ok(copies)
}

#[cycle(expressions)]
fn item(alloc: Global, numbers: &Numbers, item: &Item<Expr>) -> Result<Item<Expr>, AllocError>
    ensures { IfOk result (λ copy. IsItem (number_in numbers.now) item.now copy) }
{
    match item {
        Item::Value(value) => Ok(Item::Value(expr(alloc, numbers, value)?)),
        Item::Pair(key, value) => {
            let key = expr(alloc, numbers, key)?;
            let value = expr(alloc, numbers, value)?;
            Ok(Item::Pair(key, value))
        }
    }
}

#[cycle(expressions)]
fn items(
    alloc: Global,
    numbers: &Numbers,
    all: &[Item<Expr>],
) -> Result<Items<Item<Expr>>, AllocError>
    ensures { IfOk result (λ copies. items_of copies ≡ renamed_items (number_in numbers.now) (items_of all.now)) }
{
    let mut copies = Items::new(alloc);
    for one in all {
        let copy = item(alloc, numbers, one)?;
        copies.push(copy)?;
    }
    Ok(copies)
}

#[cycle(expressions)]
fn access(
    alloc: Global,
    numbers: &Numbers,
    access: &Access<Expr>,
) -> Result<Access<Expr>, AllocError>
    ensures { IfOk result (λ copy. IsAccess (number_in numbers.now) access.now copy) }
{
    match access {
        Access::Index(e) => Ok(Access::Index(expr(alloc, numbers, e)?)),
        Access::Append => Ok(Access::Append),
        Access::Property(name) => Ok(Access::Property(member_name(alloc, name)?)),
        Access::Method(name, args) => {
            let name = member_name(alloc, name)?;
            let args = exprs(alloc, numbers, args.as_slice())?;
            Ok(Access::Method(name, args))
        }
    }
}

#[cycle(expressions)]
fn accesses(
    alloc: Global,
    numbers: &Numbers,
    all: &[Access<Expr>],
) -> Result<Items<Access<Expr>>, AllocError>
    ensures { IfOk result (λ copies. accesses_of copies ≡ renamed_accesses (number_in numbers.now) (accesses_of all.now)) }
{
    let mut copies = Items::new(alloc);
    for one in all {
        let copy = access(alloc, numbers, one)?;
        copies.push(copy)?;
    }
    Ok(copies)
}

#[cycle(expressions)]
fn link(
    alloc: Global,
    numbers: &Numbers,
    link: &(ChainOp, Expr),
) -> Result<(ChainOp, Expr), AllocError>
    ensures { IfOk result (λ copy. IsLink (number_in numbers.now) link.now copy) }
{
    let operand = expr(alloc, numbers, &link.1)?;
    Ok((link.0, operand))
}

#[cycle(expressions)]
fn links(
    alloc: Global,
    numbers: &Numbers,
    all: &[(ChainOp, Expr)],
) -> Result<Items<(ChainOp, Expr)>, AllocError>
    ensures { IfOk result (λ copies. links_of copies ≡ renamed_links (number_in numbers.now) (links_of all.now)) }
{
    let mut copies = Items::new(alloc);
    for one in all {
        let copy = link(alloc, numbers, one)?;
        copies.push(copy)?;
    }
    Ok(copies)
}

#[cycle(expressions)]
fn branch(
    alloc: Global,
    numbers: &Numbers,
    branch: &Branch<Expr>,
) -> Result<Branch<Expr>, AllocError>
    ensures { IfOk result (λ copy. IsBranch (number_in numbers.now) branch.now copy) }
{
    match branch {
        Branch::Full(yes, no) => {
            let yes = expr(alloc, numbers, yes)?;
            let no = expr(alloc, numbers, no)?;
            Ok(Branch::Full(yes, no))
        }
        Branch::Short(no) => Ok(Branch::Short(expr(alloc, numbers, no)?)),
    }
}

#[cycle(expressions)]
fn branches(
    alloc: Global,
    numbers: &Numbers,
    all: &[Branch<Expr>],
) -> Result<Items<Branch<Expr>>, AllocError>
    ensures { IfOk result (λ copies. branches_of copies ≡ renamed_branches (number_in numbers.now) (branches_of all.now)) }
{
    let mut copies = Items::new(alloc);
    for one in all {
        let copy = branch(alloc, numbers, one)?;
        copies.push(copy)?;
    }
    Ok(copies)
}

/// An expression with other numbers for its variables. It calls itself as deep as the expression is.
#[cycle(expressions)]
pub fn expr(alloc: Global, numbers: &Numbers, e: &Expr) -> Result<Expr, AllocError>
    ensures { IfOk result (λ d. expression_of d ≡ renamed (number_in numbers.now) (expression_of e.now)) }
{
    match e {
        Expr::Int(value, line) => Ok(Expr::Int(*value, *line)),
        Expr::Text(bytes, line) => {
            let bytes = text(alloc, bytes)?;
            Ok(Expr::Text(bytes, *line))
        }
        Expr::Quote(all, line) => {
            let all = parts(alloc, numbers, all.as_slice())?;
            Ok(Expr::Quote(all, *line))
        }
        Expr::Var(variable, line) => Ok(Expr::Var(number(numbers, *variable), *line)),
        Expr::Constant(name, line) => {
            let name = const_name(alloc, name)?;
            Ok(Expr::Constant(name, *line))
        }
        Expr::Array(all, line) => {
            let all = items(alloc, numbers, all.as_slice())?;
            Ok(Expr::Array(all, *line))
        }
        Expr::Paren(inner, line) => {
            let inner = boxed(alloc, numbers, inner)?;
            Ok(Expr::Paren(inner, *line))
        }
        Expr::Isset(places, line) => {
            let places = exprs(alloc, numbers, places.as_slice())?;
            Ok(Expr::Isset(places, *line))
        }
        Expr::Empty(inner, line) => {
            let inner = boxed(alloc, numbers, inner)?;
            Ok(Expr::Empty(inner, *line))
        }
        Expr::Exit(line) => Ok(Expr::Exit(*line)),
        Expr::ExitWith(inner, line) => {
            let inner = boxed(alloc, numbers, inner)?;
            Ok(Expr::ExitWith(inner, *line))
        }
        Expr::New(class, args, line) => {
            let class = class_name(alloc, class)?;
            let args = exprs(alloc, numbers, args.as_slice())?;
            Ok(Expr::New(class, args, *line))
        }
        Expr::NewVar(variable, args, line) => {
            let args = exprs(alloc, numbers, args.as_slice())?;
            Ok(Expr::NewVar(number(numbers, *variable), args, *line))
        }
        Expr::Call(name, args, line) => {
            let name = fun_name(alloc, name)?;
            let args = exprs(alloc, numbers, args.as_slice())?;
            Ok(Expr::Call(name, args, *line))
        }
        Expr::CallVar(variable, args, line) => {
            let args = exprs(alloc, numbers, args.as_slice())?;
            Ok(Expr::CallVar(number(numbers, *variable), args, *line))
        }
        Expr::ClassConstant(class, member, line) => {
            let class = class_name(alloc, class)?;
            let member = member_name(alloc, member)?;
            Ok(Expr::ClassConstant(class, member, *line))
        }
        Expr::StaticCall(class, member, args, line) => {
            let class = class_name(alloc, class)?;
            let member = member_name(alloc, member)?;
            let args = exprs(alloc, numbers, args.as_slice())?;
            Ok(Expr::StaticCall(class, member, args, *line))
        }
        Expr::StaticProperty(class, member, line) => {
            let class = class_name(alloc, class)?;
            let member = member_name(alloc, member)?;
            Ok(Expr::StaticProperty(class, member, *line))
        }
        Expr::ClassText(class, line) => {
            let class = class_name(alloc, class)?;
            Ok(Expr::ClassText(class, *line))
        }
        Expr::Post(head, all, line) => {
            let head = boxed(alloc, numbers, head)?;
            let all = accesses(alloc, numbers, all.as_slice())?;
            Ok(Expr::Post(head, all, *line))
        }
        Expr::Chain(first, all, line) => {
            let first = boxed(alloc, numbers, first)?;
            let all = links(alloc, numbers, all.as_slice())?;
            Ok(Expr::Chain(first, all, *line))
        }
        Expr::Print(inner, line) => {
            let inner = boxed(alloc, numbers, inner)?;
            Ok(Expr::Print(inner, *line))
        }
        Expr::Assign(place, op, value, line) => {
            let place = boxed(alloc, numbers, place)?;
            let value = boxed(alloc, numbers, value)?;
            Ok(Expr::Assign(place, *op, value, *line))
        }
        Expr::AssignReference(to, from, line) => {
            let to = number(numbers, *to);
            let from = number(numbers, *from);
            Ok(Expr::AssignReference(to, from, *line))
        }
        Expr::Choice(test, all, line) => {
            let test = boxed(alloc, numbers, test)?;
            let all = branches(alloc, numbers, all.as_slice())?;
            Ok(Expr::Choice(test, all, *line))
        }
        Expr::Coalesce(first, other, line) => {
            let first = boxed(alloc, numbers, first)?;
            let other = boxed(alloc, numbers, other)?;
            Ok(Expr::Coalesce(first, other, *line))
        }
        Expr::Compare(left, op, right, line) => {
            let left = boxed(alloc, numbers, left)?;
            let right = boxed(alloc, numbers, right)?;
            Ok(Expr::Compare(left, *op, right, *line))
        }
        Expr::Unary(op, inner, line) => {
            let inner = boxed(alloc, numbers, inner)?;
            Ok(Expr::Unary(*op, inner, *line))
        }
        Expr::InstanceOf(inner, class, line) => {
            let inner = boxed(alloc, numbers, inner)?;
            let class = class_name(alloc, class)?;
            Ok(Expr::InstanceOf(inner, class, *line))
        }
        Expr::InstanceOfVar(inner, variable, line) => {
            let inner = boxed(alloc, numbers, inner)?;
            Ok(Expr::InstanceOfVar(inner, number(numbers, *variable), *line))
        }
        Expr::Step(op, place, line) => {
            let place = boxed(alloc, numbers, place)?;
            Ok(Expr::Step(*op, place, *line))
        }
        Expr::Clone(inner, line) => {
            let inner = boxed(alloc, numbers, inner)?;
            Ok(Expr::Clone(inner, *line))
        }
        Expr::Include(kind, inner, line) => {
            let inner = boxed(alloc, numbers, inner)?;
            Ok(Expr::Include(*kind, inner, *line))
        }
    }
}
