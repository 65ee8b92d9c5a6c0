//! Operators between operands, and the classes after `new` and `instanceof`.
#![tactic(auto, using(php_tree::proofs::Expressions::expressions), unfolding(php_grammar::specs::Act::act, php_grammar::specs::Grammar::production))]

ghost use Rattle.std.specs.Prelude.{◌≡◌, OnOk};
ghost use Rattle.php_grammar.specs.declared.part.Rule.TheVariants as g;
ghost use Rattle.php_pieces.specs.Pieces.{values_of};
ghost use Rattle.php_pieces.specs.Stacks.{reduced};
ghost use Rattle.php_building.specs.Parts.{step_of};
ghost use Rattle.php_grammar.specs.Act as spec;
ghost use Rattle.php_pieces.specs.Pieces.{value_of};

use php_building::part::Step;
use php_pieces::piece::Piece;
use php_pieces::stack::{Stack, pop, push, skip};
use php_popped::lists::{pop_branches, pop_links};
use php_popped::parts::{no_class, pop_branch, pop_expr, pop_tail, pop_token};
use php_popped::pop::{pop_boxed, pop_class_name, pop_number};
use php_popped::token::detail_of;
use php_tree::expr::Branch;
use sqlite_items::Items;
use std::alloc::{AllocError, Global};

/// A class whose first token is not known yet, with what stands after its `::`.
pub fn begun_static(alloc: Global, stack: &mut Stack<'_>) -> Result<(), AllocError>
    ensures { OnOk result (values_of stack.new ≡ reduced g.BegunStatic (values_of stack.old)) }
{
    let tail = pop_tail(alloc, stack);
    skip(stack);
    push(stack, Piece::Begun(tail, Items::new(alloc)))?;
    Ok(())
}

/// What stands after one `?`, before the others.
pub fn ternary(alloc: Global, stack: &mut Stack<'_>) -> Result<(), AllocError>
    ensures { OnOk result (values_of stack.new ≡ reduced g.Ternary (values_of stack.old)) }
{
    let mut branches = pop_branches(alloc, stack);
    let branch = pop_branch(stack);
    skip(stack);
    branches.push(branch)?;
    push(stack, Piece::Branches(branches))?;
    Ok(())
}

/// What stands after `?:`.
pub fn short_choice(stack: &mut Stack<'_>) -> Result<(), AllocError>
    ensures { OnOk result (values_of stack.new ≡ reduced g.ShortChoice (values_of stack.old)) }
{
    let expr = pop_expr(stack);
    skip(stack);
    push(stack, Piece::Branch(Branch::Short(expr)))?;
    Ok(())
}

/// What stands after `?` and `:`.
pub fn full_choice(stack: &mut Stack<'_>) -> Result<(), AllocError>
    ensures { OnOk result (values_of stack.new ≡ reduced g.FullChoice (values_of stack.old)) }
{
    let other = pop_expr(stack);
    skip(stack);
    let expr = pop_expr(stack);
    push(stack, Piece::Branch(Branch::Full(expr, other)))?;
    Ok(())
}

/// `??` with what stands after it.
pub fn coalesced(alloc: Global, stack: &mut Stack<'_>) -> Result<(), AllocError>
    ensures { OnOk result (values_of stack.new ≡ reduced g.Coalesced (values_of stack.old)) }
{
    let expr = pop_boxed(alloc, stack)?;
    skip(stack);
    push(stack, Piece::Step(Step::Coalesces(expr)))?;
    Ok(())
}

/// A comparison with what stands after it.
pub fn compared(alloc: Global, stack: &mut Stack<'_>) -> Result<(), AllocError>
    ensures { OnOk result (values_of stack.new ≡ reduced g.EqualityStep (values_of stack.old)) }
{
    let expr = pop_boxed(alloc, stack)?;
    let token = pop_token(stack);
    push(
        stack,
        Piece::Step(Step::Compares(detail_of(token).compare_op(), expr)),
    )?;
    Ok(())
}

/// `instanceof` with its class.
pub fn instance(alloc: Global, stack: &mut Stack<'_>) -> Result<(), AllocError>
    ensures { OnOk result (values_of stack.new ≡ reduced g.InstanceStep (values_of stack.old)) }
{
    let class = pop(stack);
    skip(stack);
    push(stack, Piece::Step(instance_of(alloc, class)))?;
    Ok(())
}

/// The class, or the variable that names it.
fn instance_of(alloc: Global, class: Piece<'_>) -> Step
    ensures { step_of result ≡ spec.instance_in (value_of class.entry) }
{
    match class {
        Piece::Var(number) => Step::InstanceOfVar(number),
        Piece::Class(name) => Step::InstanceOf(name),
        other => {
            drop(other);
            Step::InstanceOf(no_class(alloc))
        }
    }
}

/// An operator of a chain with its operand, before the others.
pub fn chained(alloc: Global, stack: &mut Stack<'_>) -> Result<(), AllocError>
    ensures { OnOk result (values_of stack.new ≡ reduced g.OrStep (values_of stack.old)) }
{
    let mut links = pop_links(alloc, stack);
    let expr = pop_expr(stack);
    let token = pop_token(stack);
    links.push((detail_of(token).chain_op(), expr))?;
    push(stack, Piece::Links(links))?;
    Ok(())
}

/// The name of a class.
pub fn class_word(alloc: Global, stack: &mut Stack<'_>) -> Result<(), AllocError>
    ensures { OnOk result (values_of stack.new ≡ reduced g.ClassWord (values_of stack.old)) }
{
    let name = pop_class_name(alloc, stack)?;
    push(stack, Piece::Class(name))?;
    Ok(())
}

/// A variable in place of a class.
pub fn class_var(stack: &mut Stack<'_>) -> Result<(), AllocError>
    ensures { OnOk result (values_of stack.new ≡ reduced g.ClassVar (values_of stack.old)) }
{
    let number = pop_number(stack);
    push(stack, Piece::Var(number))?;
    Ok(())
}
