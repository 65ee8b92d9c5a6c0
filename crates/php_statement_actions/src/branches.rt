//! `if` with its further arms.
#![tactic(auto, using(php_tree::proofs::Expressions::expressions, php_tree::proofs::Statements::statements), unfolding(php_grammar::specs::Act::act, php_grammar::specs::Grammar::production))]

ghost use Rattle.std.specs.Prelude.{◌≡◌, OnOk};
ghost use Rattle.php_grammar.specs.declared.part.Rule.TheVariants as g;
ghost use Rattle.php_pieces.specs.Pieces.{values_of};
ghost use Rattle.php_pieces.specs.Stacks.{reduced};

use crate::common::pop_one;
use backward_list::Backward;
use php_building::part::IfParts;
use php_pieces::piece::Piece;
use php_pieces::stack::{Stack, push, skip};
use php_popped::lists::pop_stmts;
use php_popped::parts::pop_if_parts;
use php_popped::pop::{pop_boxed, pop_line};
use php_tree::stmt::{IfArm, Stmt};
use sqlite_items::Items;
use std::alloc::{AllocError, Global};

/// `if`.
pub fn if_of(alloc: Global, stack: &mut Stack<'_>) -> Result<(), AllocError>
    ensures { OnOk result (values_of stack.new ≡ reduced g.IfStmt (values_of stack.old)) }
{
    let IfParts {
        guarded,
        mut arms,
        last,
    } = pop_if_parts(alloc, stack);
    skip(stack);
    let test = pop_boxed(alloc, stack)?;
    skip(stack);
    let line = pop_line(stack);
    arms.push(IfArm::Arm(test, guarded))?;
    push(stack, Piece::Stmt(Stmt::If(arms.into_items(), last, line)))?;
    Ok(())
}

/// What an `if` guards up to its `elseif`, `else` or `endif`.
pub fn listed(alloc: Global, stack: &mut Stack<'_>) -> Result<(), AllocError>
    ensures { OnOk result (values_of stack.new ≡ reduced g.IfListed (values_of stack.old)) }
{
    let parts = pop_if_parts(alloc, stack);
    let stmts = pop_stmts(alloc, stack);
    skip(stack);
    push(stack, Piece::IfParts(guarding(stmts.into_items(), parts)))?;
    Ok(())
}

/// One statement that an `if` guards.
pub fn single(alloc: Global, stack: &mut Stack<'_>) -> Result<(), AllocError>
    ensures { OnOk result (values_of stack.new ≡ reduced g.IfSingle (values_of stack.old)) }
{
    let parts = pop_if_parts(alloc, stack);
    let stmts = pop_one(alloc, stack)?;
    push(stack, Piece::IfParts(guarding(stmts, parts)))?;
    Ok(())
}

/// The same, with what is guarded.
fn guarding(guarded: Items<Stmt>, parts: IfParts) -> IfParts
    ensures guarded { result.guarded ≡ guarded }
    ensures arms { result.arms ≡ parts.arms }
    ensures last { result.last ≡ parts.last }
{
    let IfParts {
        guarded: _nothing,
        arms,
        last,
    } = parts;
    IfParts {
        guarded,
        arms,
        last,
    }
}

/// `elseif` with one statement.
pub fn else_if(alloc: Global, stack: &mut Stack<'_>) -> Result<(), AllocError>
    ensures { OnOk result (values_of stack.new ≡ reduced g.ElseIf (values_of stack.old)) }
{
    let IfParts {
        guarded,
        mut arms,
        last,
    } = pop_if_parts(alloc, stack);
    drop(guarded);
    let stmts = pop_one(alloc, stack)?;
    skip(stack);
    let test = pop_boxed(alloc, stack)?;
    skip(stack);
    skip(stack);
    arms.push(IfArm::Arm(test, stmts))?;
    push(
        stack,
        Piece::IfParts(IfParts {
            guarded: Items::new(alloc),
            arms,
            last,
        }),
    )?;
    Ok(())
}

/// `elseif` with statements after `:`.
pub fn else_if_listed(alloc: Global, stack: &mut Stack<'_>) -> Result<(), AllocError>
    ensures { OnOk result (values_of stack.new ≡ reduced g.ElseIfListed (values_of stack.old)) }
{
    let IfParts {
        guarded,
        mut arms,
        last,
    } = pop_if_parts(alloc, stack);
    drop(guarded);
    let stmts = pop_stmts(alloc, stack);
    skip(stack);
    skip(stack);
    let test = pop_boxed(alloc, stack)?;
    skip(stack);
    skip(stack);
    arms.push(IfArm::Arm(test, stmts.into_items()))?;
    push(
        stack,
        Piece::IfParts(IfParts {
            guarded: Items::new(alloc),
            arms,
            last,
        }),
    )?;
    Ok(())
}

/// `else` with one statement.
pub fn else_single(alloc: Global, stack: &mut Stack<'_>) -> Result<(), AllocError>
    ensures { OnOk result (values_of stack.new ≡ reduced g.ElseSingle (values_of stack.old)) }
{
    let last = pop_one(alloc, stack)?;
    skip(stack);
    push(
        stack,
        Piece::IfParts(IfParts {
            guarded: Items::new(alloc),
            arms: Backward::new(alloc),
            last,
        }),
    )?;
    Ok(())
}

/// `else` with statements after `:`.
pub fn else_listed(alloc: Global, stack: &mut Stack<'_>) -> Result<(), AllocError>
    ensures { OnOk result (values_of stack.new ≡ reduced g.ElseListed (values_of stack.old)) }
{
    skip(stack);
    skip(stack);
    let last = pop_stmts(alloc, stack);
    skip(stack);
    skip(stack);
    push(
        stack,
        Piece::IfParts(IfParts {
            guarded: Items::new(alloc),
            arms: Backward::new(alloc),
            last: last.into_items(),
        }),
    )?;
    Ok(())
}

/// `endif`.
pub fn end_if(alloc: Global, stack: &mut Stack<'_>) -> Result<(), AllocError>
    ensures { OnOk result (values_of stack.new ≡ reduced g.EndIf (values_of stack.old)) }
{
    skip(stack);
    skip(stack);
    push(
        stack,
        Piece::IfParts(IfParts {
            guarded: Items::new(alloc),
            arms: Backward::new(alloc),
            last: Items::new(alloc),
        }),
    )?;
    Ok(())
}
