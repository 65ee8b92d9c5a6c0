//! How an operand ends.
#![tactic(auto, using(php_tree::proofs::Expressions::expressions), unfolding(php_grammar::specs::Act::act, php_grammar::specs::Grammar::production))]

ghost use Rattle.std.specs.Prelude.{◌≡◌, OnOk};
ghost use Rattle.php_grammar.specs.declared.part.Rule.TheVariants as g;
ghost use Rattle.php_pieces.specs.Pieces.{values_of};
ghost use Rattle.php_pieces.specs.Stacks.{reduced};
ghost use Rattle.php_building.specs.Parts.{tail_of, ending_of};
ghost use Rattle.php_grammar.specs.Act as spec;

use backward_list::Backward;
use php_building::part::{Ending, First, Tail};
use php_pieces::piece::Piece;
use php_pieces::stack::{Stack, push, skip};
use php_popped::parts::{pop_ending, pop_token};
use php_popped::pop::{pop_boxed, pop_number};
use php_popped::token::detail_of;
use php_tree::expr::{Access, AssignOp};
use std::alloc::{AllocError, Global};

/// How an operand ends, with nothing before it.
fn ends(alloc: Global, ending: Ending) -> Tail
    ensures { tail_of result ≡ spec.ends (ending_of ending) }
{
    Tail {
        first: First::Nothing,
        accesses: Backward::new(alloc),
        ending,
    }
}

/// `=` after a variable, with a value or a reference.
pub fn assign_var(alloc: Global, stack: &mut Stack<'_>) -> Result<(), AllocError>
    ensures { OnOk result (values_of stack.new ≡ reduced g.AssignVar (values_of stack.old)) }
{
    let ending = pop_ending(stack);
    skip(stack);
    push(stack, Piece::Tail(ends(alloc, ending)))?;
    Ok(())
}

/// An assignment after a place.
pub fn assign(alloc: Global, stack: &mut Stack<'_>) -> Result<(), AllocError>
    ensures { OnOk result (values_of stack.new ≡ reduced g.AssignPlace (values_of stack.old)) }
{
    let value = pop_boxed(alloc, stack)?;
    let token = pop_token(stack);
    let ending = Ending::Sets(detail_of(token).assign_op(), value);
    push(stack, Piece::Tail(ends(alloc, ending)))?;
    Ok(())
}

/// `++` or `--` after its place.
pub fn step_after(alloc: Global, stack: &mut Stack<'_>) -> Result<(), AllocError>
    ensures { OnOk result (values_of stack.new ≡ reduced g.StepAfter (values_of stack.old)) }
{
    let token = pop_token(stack);
    let ending = Ending::StepsBy(detail_of(token).step_after());
    push(stack, Piece::Tail(ends(alloc, ending)))?;
    Ok(())
}

/// `[ ]`, and what is assigned to it.
pub fn appended(alloc: Global, stack: &mut Stack<'_>) -> Result<(), AllocError>
    ensures { OnOk result (values_of stack.new ≡ reduced g.Appended (values_of stack.old)) }
{
    let ending = pop_ending(stack);
    skip(stack);
    let mut accesses = Backward::new(alloc);
    accesses.push(Access::Append)?;
    push(
        stack,
        Piece::Tail(Tail {
            first: First::Nothing,
            accesses,
            ending,
        }),
    )?;
    Ok(())
}

/// An assignment.
pub fn only_assign(alloc: Global, stack: &mut Stack<'_>) -> Result<(), AllocError>
    ensures { OnOk result (values_of stack.new ≡ reduced g.OnlyAssign (values_of stack.old)) }
{
    let value = pop_boxed(alloc, stack)?;
    let token = pop_token(stack);
    push(
        stack,
        Piece::Ending(Ending::Sets(detail_of(token).assign_op(), value)),
    )?;
    Ok(())
}

/// `&` with a variable.
pub fn reference(stack: &mut Stack<'_>) -> Result<(), AllocError>
    ensures { OnOk result (values_of stack.new ≡ reduced g.Reference (values_of stack.old)) }
{
    let number = pop_number(stack);
    skip(stack);
    push(stack, Piece::Ending(Ending::Refers(number)))?;
    Ok(())
}

/// A value that is assigned.
pub fn a_value(alloc: Global, stack: &mut Stack<'_>) -> Result<(), AllocError>
    ensures { OnOk result (values_of stack.new ≡ reduced g.AValue (values_of stack.old)) }
{
    let value = pop_boxed(alloc, stack)?;
    push(stack, Piece::Ending(Ending::Sets(AssignOp::Set, value)))?;
    Ok(())
}
