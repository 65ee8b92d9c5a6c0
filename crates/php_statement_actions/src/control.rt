//! Loops, `switch` and `try`.
#![tactic(auto, using(php_tree::proofs::Expressions::expressions, php_tree::proofs::Statements::statements), unfolding(php_grammar::specs::Act::act, php_grammar::specs::Grammar::production))]

ghost use Rattle.std.specs.Prelude.{◌≡◌, OnOk};
ghost use Rattle.php_grammar.specs.declared.part.Rule.TheVariants as g;
ghost use Rattle.php_pieces.specs.Pieces.{values_of};
ghost use Rattle.php_pieces.specs.Stacks.{reduced};
ghost use Rattle.php_grammar.specs.Act as spec;

use crate::common::{pop_more_names, pop_one};
use backward_list::Backward;
use php_pieces::piece::Piece;
use php_pieces::stack::{Stack, pop, push, skip};
use php_popped::lists::{pop_cases, pop_clauses, pop_exprs, pop_stmts};
use php_popped::parts::{pop_second, pop_stmt};
use php_popped::pop::{pop_boxed, pop_line, pop_number};
use php_tree::stmt::{Catch, Stmt, SwitchArm};
use std::alloc::{AllocError, Global};

/// `while`.
pub fn while_loop(alloc: Global, stack: &mut Stack<'_>) -> Result<(), AllocError>
    ensures { OnOk result (values_of stack.new ≡ reduced g.WhileStmt (values_of stack.old)) }
{
    let stmts = pop_stmts(alloc, stack);
    skip(stack);
    let test = pop_boxed(alloc, stack)?;
    skip(stack);
    let line = pop_line(stack);
    push(
        stack,
        Piece::Stmt(Stmt::While(test, stmts.into_items(), line)),
    )?;
    Ok(())
}

/// `do` and `while`.
pub fn do_loop(alloc: Global, stack: &mut Stack<'_>) -> Result<(), AllocError>
    ensures { OnOk result (values_of stack.new ≡ reduced g.DoStmt (values_of stack.old)) }
{
    skip(stack);
    skip(stack);
    let test = pop_boxed(alloc, stack)?;
    skip(stack);
    skip(stack);
    let stmts = pop_one(alloc, stack)?;
    let line = pop_line(stack);
    push(stack, Piece::Stmt(Stmt::Do(stmts, test, line)))?;
    Ok(())
}

/// `for`.
pub fn for_loop(alloc: Global, stack: &mut Stack<'_>) -> Result<(), AllocError>
    ensures { OnOk result (values_of stack.new ≡ reduced g.ForStmt (values_of stack.old)) }
{
    let stmts = pop_stmts(alloc, stack);
    skip(stack);
    let steps = pop_exprs(alloc, stack);
    skip(stack);
    let tests = pop_exprs(alloc, stack);
    skip(stack);
    let before = pop_exprs(alloc, stack);
    skip(stack);
    let line = pop_line(stack);
    push(
        stack,
        Piece::Stmt(Stmt::For(
            before.into_items(),
            tests.into_items(),
            steps.into_items(),
            stmts.into_items(),
            line,
        )),
    )?;
    Ok(())
}

/// `foreach`.
pub fn foreach(alloc: Global, stack: &mut Stack<'_>) -> Result<(), AllocError>
    ensures { OnOk result (values_of stack.new ≡ reduced g.ForeachStmt (values_of stack.old)) }
{
    let stmts = pop_stmts(alloc, stack);
    skip(stack);
    let second = pop_second(stack);
    let first = pop_number(stack);
    skip(stack);
    let whole = pop_boxed(alloc, stack)?;
    skip(stack);
    let line = pop_line(stack);
    let key = key_of_each(first, second);
    let value = value_of_each(first, second);
    push(
        stack,
        Piece::Stmt(Stmt::Foreach(whole, key, value, stmts.into_items(), line)),
    )?;
    Ok(())
}

/// The variable of the key, where two stand there.
fn key_of_each(first: u32, second: Option<u32>) -> Option<u32>
    ensures { result ≡ spec.key_of_each first second }
{
    match second {
        None => None,
        Some(_) => Some(first),
    }
}

/// The variable of the element.
fn value_of_each(first: u32, second: Option<u32>) -> u32
    ensures { result ≡ spec.value_of_each first second }
{
    match second {
        None => first,
        Some(number) => number,
    }
}

/// `switch`.
pub fn switch(alloc: Global, stack: &mut Stack<'_>) -> Result<(), AllocError>
    ensures { OnOk result (values_of stack.new ≡ reduced g.SwitchStmt (values_of stack.old)) }
{
    let cases = pop_cases(alloc, stack);
    skip(stack);
    let expr = pop_boxed(alloc, stack)?;
    skip(stack);
    let line = pop_line(stack);
    push(
        stack,
        Piece::Stmt(Stmt::Switch(expr, cases.into_items(), line)),
    )?;
    Ok(())
}

/// `try` with what it catches.
pub fn try_catch(alloc: Global, stack: &mut Stack<'_>) -> Result<(), AllocError>
    ensures { OnOk result (values_of stack.new ≡ reduced g.TryStmt (values_of stack.old)) }
{
    let clauses = pop_clauses(alloc, stack);
    skip(stack);
    let stmts = pop_stmts(alloc, stack);
    skip(stack);
    let line = pop_line(stack);
    push(
        stack,
        Piece::Stmt(Stmt::Try(stmts.into_items(), clauses.into_items(), line)),
    )?;
    Ok(())
}

/// The statements of a loop between `:` and its end.
pub fn listed(stack: &mut Stack<'_>) -> Result<(), AllocError>
    ensures { OnOk result (values_of stack.new ≡ reduced g.WhileListed (values_of stack.old)) }
{
    skip(stack);
    skip(stack);
    let piece = pop(stack);
    skip(stack);
    push(stack, piece)?;
    Ok(())
}

/// One statement as a body.
pub fn single(alloc: Global, stack: &mut Stack<'_>) -> Result<(), AllocError>
    ensures { OnOk result (values_of stack.new ≡ reduced g.BodySingle (values_of stack.old)) }
{
    let stmt = pop_stmt(stack);
    let mut stmts = Backward::new(alloc);
    stmts.push(stmt)?;
    push(stack, Piece::Stmts(stmts))?;
    Ok(())
}

/// The arms of a `switch` in braces.
pub fn braced(stack: &mut Stack<'_>) -> Result<(), AllocError>
    ensures { OnOk result (values_of stack.new ≡ reduced g.SwitchBraced (values_of stack.old)) }
{
    skip(stack);
    let piece = pop(stack);
    skip(stack);
    skip(stack);
    push(stack, piece)?;
    Ok(())
}

/// The arms of a `switch` between `:` and its end.
pub fn listed_arms(stack: &mut Stack<'_>) -> Result<(), AllocError>
    ensures { OnOk result (values_of stack.new ≡ reduced g.SwitchListed (values_of stack.old)) }
{
    skip(stack);
    skip(stack);
    let piece = pop(stack);
    skip(stack);
    skip(stack);
    push(stack, piece)?;
    Ok(())
}

/// A `case`, before the other arms.
pub fn case(alloc: Global, stack: &mut Stack<'_>) -> Result<(), AllocError>
    ensures { OnOk result (values_of stack.new ≡ reduced g.CaseArm (values_of stack.old)) }
{
    let mut cases = pop_cases(alloc, stack);
    let stmts = pop_stmts(alloc, stack);
    skip(stack);
    let expr = pop_boxed(alloc, stack)?;
    skip(stack);
    cases.push(SwitchArm::Case(expr, stmts.into_items()))?;
    push(stack, Piece::Cases(cases))?;
    Ok(())
}

/// A `default`, before the other arms.
pub fn default_case(alloc: Global, stack: &mut Stack<'_>) -> Result<(), AllocError>
    ensures { OnOk result (values_of stack.new ≡ reduced g.DefaultArm (values_of stack.old)) }
{
    let mut cases = pop_cases(alloc, stack);
    let stmts = pop_stmts(alloc, stack);
    skip(stack);
    skip(stack);
    cases.push(SwitchArm::Default(stmts.into_items()))?;
    push(stack, Piece::Cases(cases))?;
    Ok(())
}

/// A `catch`, before the others.
pub fn catch(alloc: Global, stack: &mut Stack<'_>) -> Result<(), AllocError>
    ensures { OnOk result (values_of stack.new ≡ reduced g.ACatch (values_of stack.old)) }
{
    let mut clauses = pop_clauses(alloc, stack);
    skip(stack);
    let stmts = pop_stmts(alloc, stack);
    skip(stack);
    skip(stack);
    let number = pop_number(stack);
    let names = pop_more_names(alloc, stack)?;
    skip(stack);
    skip(stack);
    clauses.push(Catch::Clause(names.into_items(), number, stmts.into_items()))?;
    push(stack, Piece::Clauses(clauses))?;
    Ok(())
}
