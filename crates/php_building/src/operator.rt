//! Operators between operands.

ghost use Rattle.std.specs.Prelude.{◌≡◌, IfOk, map};
ghost use Rattle.php_building.specs.Parts.{step_of, join_of, tail_of};
ghost use Rattle.php_grammar.specs.Act as spec;
ghost use Rattle.php_tree.specs.ExpressionOf.{expression_of};

use crate::operand::named;
use crate::part::{Join, Step, Tail};
use php_tree::expr::Expr;
use sqlite_items::{Boxed, Items};
use std::alloc::{AllocError, Global};

/// An operand with an operator of a level that does not go on.
#[tactic(auto, using(php_tree::proofs::Expressions::expressions))]
pub fn stepped(alloc: Global, head: Expr, step: Step) -> Result<Expr, AllocError>
    ensures { IfOk result (λ made. expression_of made ≡ spec.stepped (expression_of head) (step_of step)) }
{
    let line = head.line();
    let head = Boxed::new(alloc, head)?;
    match step {
        Step::Coalesces(expr) => Ok(Expr::Coalesce(head, expr, line)),
        Step::Compares(op, expr) => Ok(Expr::Compare(head, op, expr, line)),
        Step::InstanceOf(name) => Ok(Expr::InstanceOf(head, name, line)),
        Step::InstanceOfVar(number) => Ok(Expr::InstanceOfVar(head, number, line)),
    }
}

/// An operand with what its level goes on with.
#[tactic(auto, using(php_tree::proofs::Expressions::expressions))]
pub fn joined(alloc: Global, head: Expr, join: Join) -> Result<Expr, AllocError>
    ensures { IfOk result (λ made. expression_of made ≡ spec.joined (expression_of head) (join_of join)) }
{
    match join {
        Join::ByLinks(links) => {
            let line = head.line();
            let head = Boxed::new(alloc, head)?;
            Ok(Expr::Chain(head, links.into_items(), line))
        }
        Join::ByBranches(branches) => {
            let line = head.line();
            let head = Boxed::new(alloc, head)?;
            Ok(Expr::Choice(head, branches.into_items(), line))
        }
        Join::ByStep(step) => {
            let made = stepped(alloc, head, step)?;
            Ok(made)
        }
        Join::ByNothing => Ok(head),
    }
}

/// An operand with what several levels go on with, the tightest first.
#[tactic(auto, using(crate::proofs::Joins::joins))]
pub fn joined_all(alloc: Global, head: Expr, joins: Items<Join>) -> Result<Expr, AllocError>
    ensures { IfOk result (λ made. expression_of made ≡ spec.joined_all (expression_of head) (map join_of joins)) }
{
    let mut joins = joins;
    match joins.pop() {
        None => Ok(head),
        Some(last) => {
            let head = joined_all(alloc, head, joins)?;
            let made = joined(alloc, head, last)?;
            Ok(made)
        }
    }
}

/// An expression that begins with a class, of which the first token is known.
pub fn begun_expr(
    alloc: Global,
    text: Items<u8>,
    line: u32,
    tail: Tail,
    joins: Items<Join>,
) -> Result<Expr, AllocError>
    ensures { IfOk result (λ made. expression_of made
        ≡ spec.joined_all (spec.named text line (tail_of tail)) (map join_of joins)) }
{
    let head = named(alloc, text, line, tail)?;
    let made = joined_all(alloc, head, joins)?;
    Ok(made)
}
