//! Operands of constant expressions.
#![tactic(auto, using(php_tree::proofs::Expressions::expressions), unfolding(php_grammar::specs::Act::act, php_grammar::specs::Grammar::production))]

ghost use Rattle.std.specs.Prelude.{◌≡◌, OnOk};
ghost use Rattle.php_grammar.specs.declared.part.Rule.TheVariants as g;
ghost use Rattle.php_pieces.specs.Pieces.{values_of};
ghost use Rattle.php_pieces.specs.Stacks.{reduced};
ghost use Rattle.php_grammar.specs.declared.token.Kind.TheVariants as k;

use php_building::operand::const_named;
use php_building::part::ConstTail;
use php_pieces::piece::Piece;
use php_pieces::stack::{Stack, push, skip};
use php_popped::lists::pop_items;
use php_popped::parts::{pop_named, pop_token};
use php_popped::pop::{pop_line, pop_member_name};
use php_popped::token::{int_of, line_of, text_of};
use php_tree::expr::Expr;
use std::alloc::{AllocError, Global};

/// A whole number.
pub fn int(stack: &mut Stack<'_>) -> Result<(), AllocError>
    ensures { OnOk result (values_of stack.new ≡ reduced g.CInt (values_of stack.old)) }
{
    let token = pop_token(stack);
    push(stack, Piece::Expr(Expr::Int(int_of(token), line_of(token))))?;
    Ok(())
}

/// A text.
pub fn text(alloc: Global, stack: &mut Stack<'_>) -> Result<(), AllocError>
    ensures { OnOk result (values_of stack.new ≡ reduced g.CText (values_of stack.old)) }
{
    let token = pop_token(stack);
    let text = text_of(alloc, token)?;
    push(stack, Piece::Expr(Expr::Text(text, line_of(token))))?;
    Ok(())
}

/// A word with what stands after it.
pub fn word(alloc: Global, stack: &mut Stack<'_>) -> Result<(), AllocError>
    ensures { OnOk result (values_of stack.new ≡ reduced g.CWord (values_of stack.old)) }
{
    let rest = pop_named(stack);
    let token = pop_token(stack);
    let text = text_of(alloc, token)?;
    push(stack, Piece::Expr(const_named(text, line_of(token), rest)))?;
    Ok(())
}

/// The class `static` with what stands after its `::`.
pub fn class(alloc: Global, stack: &mut Stack<'_>) -> Result<(), AllocError>
    ensures { OnOk result (values_of stack.new ≡ reduced g.CStatic (values_of stack.old)) }
{
    let rest = pop_named(stack);
    skip(stack);
    let token = pop_token(stack);
    let text = text_of(alloc, token)?;
    push(stack, Piece::Expr(const_named(text, line_of(token), rest)))?;
    Ok(())
}

/// An array in brackets.
pub fn bracket(alloc: Global, stack: &mut Stack<'_>) -> Result<(), AllocError>
    ensures { OnOk result (values_of stack.new ≡ reduced g.CBracket (values_of stack.old)) }
{
    skip(stack);
    let items = pop_items(alloc, stack);
    let line = pop_line(stack);
    push(stack, Piece::Expr(Expr::Array(items.into_items(), line)))?;
    Ok(())
}

/// `class` after a class and `::`.
pub fn class_form(stack: &mut Stack<'_>) -> Result<(), AllocError>
    ensures { OnOk result (values_of stack.new ≡ reduced g.CClassForm (values_of stack.old)) }
{
    skip(stack);
    push(stack, Piece::Named(ConstTail::ClassForm))?;
    Ok(())
}

/// A constant after a class and `::`.
pub fn member(alloc: Global, stack: &mut Stack<'_>) -> Result<(), AllocError>
    ensures { OnOk result (values_of stack.new ≡ reduced (g.CNamed k.Word) (values_of stack.old)) }
{
    let name = pop_member_name(alloc, stack)?;
    push(stack, Piece::Named(ConstTail::ClassMember(name)))?;
    Ok(())
}

/// The items of `array(..)`.
pub fn array_items(alloc: Global, stack: &mut Stack<'_>) -> Result<(), AllocError>
    ensures { OnOk result (values_of stack.new ≡ reduced g.CArrayItems (values_of stack.old)) }
{
    skip(stack);
    let items = pop_items(alloc, stack);
    skip(stack);
    push(stack, Piece::Named(ConstTail::ArrayOfItems(items)))?;
    Ok(())
}
