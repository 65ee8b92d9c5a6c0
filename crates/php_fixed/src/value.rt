// The value of a constant expression.
#![tactic(auto, using(crate::proofs::Heights::falls))]

ghost use Rattle.std.specs.Prelude.{◌∷◌, List, IfOk};
ghost use Rattle.php_tree.specs.declared.expr.Branch.{Branch};
ghost use Rattle.php_tree.specs.declared.expr.ChainOp.{ChainOp};
ghost use Rattle.php_tree.specs.declared.expr.Expr.{Expr};
ghost use Rattle.php_tree.specs.declared.expr.Item.{Item};
ghost use Rattle.php_values.specs.Data.{data_of};
ghost use Rattle.php_meaning.specs.Constants as meaning;
ghost use Rattle.php_rest.specs.Named.{named, items_named, links_named, branches_named};
ghost use Rattle.php_fixed.specs.Evaluated.{Evaluates, GoesOn, pair_at};

use crate::element::{no_elements, with_element};
use crate::link::decided;
use crate::named::constant;
use order_map::ByteText;
use php_meaning::FatalName;
use php_names::NameTable;
use php_rest::Outcome;
use php_steps::{before, chained};
use php_tree::expr::{Branch, ChainOp, Expr, Item};
use php_values::{Value, truth};
use php_world::Step;
use std::alloc::{AllocError, Global};

// An array with one item more.
#[cycle(fixed)]
fn with_item(
    alloc: Global,
    constants: &NameTable<Value>,
    path: &[u8],
    item: &Item<Expr>,
    array: Value,
) -> Result<Outcome, AllocError>
    ensures { IfOk result (λ o. (more : List (Item Expr)) → GoesOn path.now constants.now (λ t. meaning.fixed_items (items_named t (item.now ∷ more)) (data_of array)) (λ t. meaning.fixed_items (items_named t more)) o) }
{
    match item {
        Item::Value(value) => {
            let part = fixed(alloc, constants, path, value)?;
            match part {
                Outcome::Gives(value) => {
                    let all = with_element(alloc, array, Step::Next, value)?;
                    Ok(all)
                }
                Outcome::Fails(why) => Ok(Outcome::Fails(why)),
            }
        }
        Item::Pair(key, value) => {
            let part = fixed(alloc, constants, path, key)?;
            match part {
                Outcome::Gives(key) => {
                    let all = with_pair(alloc, constants, path, value, array, key)?;
                    Ok(all)
                }
                Outcome::Fails(why) => Ok(Outcome::Fails(why)),
            }
        }
    }
}

// An array with an element at a key, whose value is evaluated.
#[cycle(fixed)]
fn with_pair(
    alloc: Global,
    constants: &NameTable<Value>,
    path: &[u8],
    value: &Expr,
    array: Value,
    key: Value,
) -> Result<Outcome, AllocError>
    ensures { IfOk result (λ o. (more : List (Item Expr)) → GoesOn path.now constants.now (λ t. pair_at (named t value.now) (data_of array) (meaning.fixed_items (items_named t more)) (data_of key)) (λ t. meaning.fixed_items (items_named t more)) o) }
{
    let part = fixed(alloc, constants, path, value)?;
    match part {
        Outcome::Gives(value) => {
            let all = with_element(alloc, array, Step::At(key), value)?;
            Ok(all)
        }
        Outcome::Fails(why) => Ok(Outcome::Fails(why)),
    }
}

// An array literal.
#[cycle(fixed)]
fn array(
    alloc: Global,
    constants: &NameTable<Value>,
    path: &[u8],
    items: &[Item<Expr>],
) -> Result<Outcome, AllocError>
    ensures { IfOk result (λ o. Evaluates path.now constants.now (λ t. meaning.fixed_items (items_named t items.now) meaning.no_elements) o) }
{
    let mut array = no_elements(alloc)?;
    for item in items {
        match with_item(alloc, constants, path, item, array)? {
            Outcome::Gives(more) => array = more,
            Outcome::Fails(why) => return Ok(Outcome::Fails(why)),
        }
    }
    Ok(Outcome::Gives(array))
}

// A chain's value so far with one operator more.
#[cycle(fixed)]
fn with_link(
    alloc: Global,
    constants: &NameTable<Value>,
    path: &[u8],
    link: &(ChainOp, Expr),
    left: Value,
) -> Result<Outcome, AllocError>
    ensures { IfOk result (λ o. (more : List (ChainOp × Expr)) → GoesOn path.now constants.now (λ t. meaning.fixed_links (links_named t (link.now ∷ more)) (data_of left)) (λ t. meaning.fixed_links (links_named t more)) o) }
{
    if let Some(b) = decided(link.0, &left) {
        return Ok(Outcome::Gives(Value::Bool(b)));
    }
    let part = fixed(alloc, constants, path, &link.1)?;
    match part {
        Outcome::Gives(right) => {
            let all = chained(alloc, link.0, &left, &right)?;
            Ok(all)
        }
        Outcome::Fails(why) => Ok(Outcome::Fails(why)),
    }
}

// What stands behind a chain's first operand.
#[cycle(fixed)]
fn chain(
    alloc: Global,
    constants: &NameTable<Value>,
    path: &[u8],
    links: &[(ChainOp, Expr)],
    first: Value,
) -> Result<Outcome, AllocError>
    ensures { IfOk result (λ o. Evaluates path.now constants.now (λ t. meaning.fixed_links (links_named t links.now) (data_of first)) o) }
{
    let mut left = first;
    for link in links {
        match with_link(alloc, constants, path, link, left)? {
            Outcome::Gives(value) => left = value,
            Outcome::Fails(why) => return Ok(Outcome::Fails(why)),
        }
    }
    Ok(Outcome::Gives(left))
}

// A choice's value so far with one branch more.
#[cycle(fixed)]
fn with_branch(
    alloc: Global,
    constants: &NameTable<Value>,
    path: &[u8],
    branch: &Branch<Expr>,
    value: Value,
) -> Result<Outcome, AllocError>
    ensures { IfOk result (λ o. (more : List (Branch Expr)) → GoesOn path.now constants.now (λ t. meaning.fixed_branches (branches_named t (branch.now ∷ more)) (data_of value)) (λ t. meaning.fixed_branches (branches_named t more)) o) }
{
    match branch {
        Branch::Full(yes, no) => {
            if truth(&value) {
                return fixed(alloc, constants, path, yes);
            }
            fixed(alloc, constants, path, no)
        }
        Branch::Short(no) => {
            if truth(&value) {
                return Ok(Outcome::Gives(value));
            }
            fixed(alloc, constants, path, no)
        }
    }
}

// What stands behind a choice's first operand.
#[cycle(fixed)]
fn choice(
    alloc: Global,
    constants: &NameTable<Value>,
    path: &[u8],
    branches: &[Branch<Expr>],
    first: Value,
) -> Result<Outcome, AllocError>
    ensures { IfOk result (λ o. Evaluates path.now constants.now (λ t. meaning.fixed_branches (branches_named t branches.now) (data_of first)) o) }
{
    let mut value = first;
    for branch in branches {
        match with_branch(alloc, constants, path, branch, value)? {
            Outcome::Gives(other) => value = other,
            Outcome::Fails(why) => return Ok(Outcome::Fails(why)),
        }
    }
    Ok(Outcome::Gives(value))
}

/// What a constant expression gives that stands in the code of a file at a path, or the fatal with which the run ends. It
/// calls itself as deep as the expression is, which is at most 200.
#[cycle(fixed)]
pub fn fixed(
    alloc: Global,
    constants: &NameTable<Value>,
    path: &[u8],
    e: &Expr,
) -> Result<Outcome, AllocError>
    ensures { IfOk result (λ o. Evaluates path.now constants.now (λ t. meaning.fixed (named t e.now)) o) }
{
    match e {
        Expr::Int(n, _) => Ok(Outcome::Gives(Value::Int(*n))),
        Expr::Text(text, _) => {
            let text = ByteText::from_slice(alloc, text.as_slice())?;
            Ok(Outcome::Gives(Value::Bytes(text)))
        }
        Expr::Constant(name, line) => {
            let all = constant(alloc, constants, path, *line, name.text.as_slice())?;
            Ok(all)
        }
        Expr::Array(items, _) => {
            let all = array(alloc, constants, path, items.as_slice())?;
            Ok(all)
        }
        Expr::Chain(first, links, _) => {
            let part = fixed(alloc, constants, path, first.get())?;
            match part {
                Outcome::Gives(first) => {
                    let all = chain(alloc, constants, path, links.as_slice(), first)?;
                    Ok(all)
                }
                Outcome::Fails(why) => Ok(Outcome::Fails(why)),
            }
        }
        Expr::Choice(first, branches, _) => {
            let part = fixed(alloc, constants, path, first.get())?;
            match part {
                Outcome::Gives(first) => {
                    let all = choice(alloc, constants, path, branches.as_slice(), first)?;
                    Ok(all)
                }
                Outcome::Fails(why) => Ok(Outcome::Fails(why)),
            }
        }
        Expr::Unary(op, operand, _) => {
            let part = fixed(alloc, constants, path, operand.get())?;
            match part {
                Outcome::Gives(value) => {
                    let all = before(alloc, *op, value)?;
                    Ok(all)
                }
                Outcome::Fails(why) => Ok(Outcome::Fails(why)),
            }
        }
        Expr::ClassConstant(_, _, _) => Ok(Outcome::Fails(FatalName::Uncaught)),
        _ => Ok(Outcome::Gives(Value::Null)),
    }
}
