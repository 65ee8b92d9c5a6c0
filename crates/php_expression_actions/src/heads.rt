//! What an operand begins with.
#![tactic(auto, using(php_tree::proofs::Expressions::expressions), unfolding(php_grammar::specs::Act::act, php_grammar::specs::Grammar::production))]

ghost use Rattle.std.specs.Prelude.{◌≡◌, OnOk};
ghost use Rattle.php_grammar.specs.declared.part.Rule.TheVariants as g;
ghost use Rattle.php_pieces.specs.Pieces.{values_of};
ghost use Rattle.php_pieces.specs.Stacks.{reduced};
ghost use Rattle.std.specs.Prelude.{◌∷◌, true};
ghost use Rattle.php_building.specs.Operands.{begun_of};
ghost use Rattle.php_building.specs.Parts.{tail_of};
ghost use Rattle.php_grammar.specs.Act as spec;
ghost use Rattle.php_grammar.specs.Values.{expr_of};
ghost use Rattle.php_pieces.specs.Pieces.{value_of};

use crate::quotes::quote_parts;
use backward_list::Backward;
use php_building::operand::{Begun, finished, named};
use php_building::part::Tail;
use php_pieces::piece::Piece;
use php_pieces::stack::{Stack, pop, push, skip};
use php_popped::lists::pop_items;
use php_popped::parts::{no_class, pop_tail, pop_token};
use php_popped::pop::{pop_boxed, pop_line, pop_more_exprs};
use php_popped::token::{int_of, line_of, number_of, text_of};
use php_tree::expr::Expr;
use std::alloc::{AllocError, Global};

/// An operand onto the stack.
fn finish(alloc: Global, stack: &mut Stack<'_>, begun: Begun, tail: Tail) -> Result<(), AllocError>
    ensures { OnOk result (values_of stack.new ≡ expr_of (spec.finished (begun_of begun) (tail_of tail)) ∷ values_of stack.old) }
{
    let made = finished(alloc, begun, tail)?;
    push(stack, Piece::Expr(made))?;
    Ok(())
}

/// A whole number.
pub fn int(alloc: Global, stack: &mut Stack<'_>) -> Result<(), AllocError>
    ensures { OnOk result (values_of stack.new ≡ reduced (g.IntPrim true) (values_of stack.old)) }
{
    let tail = pop_tail(alloc, stack);
    let token = pop_token(stack);
    let head = Expr::Int(int_of(token), line_of(token));
    finish(alloc, stack, Begun::Given(head), tail)
}

/// A text without interpolation.
pub fn text(alloc: Global, stack: &mut Stack<'_>) -> Result<(), AllocError>
    ensures { OnOk result (values_of stack.new ≡ reduced (g.TextPrim true) (values_of stack.old)) }
{
    let tail = pop_tail(alloc, stack);
    let token = pop_token(stack);
    let text = text_of(alloc, token)?;
    let head = Expr::Text(text, line_of(token));
    finish(alloc, stack, Begun::Given(head), tail)
}

/// A text with interpolation, but without embedded expressions.
pub fn quote(alloc: Global, stack: &mut Stack<'_>) -> Result<(), AllocError>
    ensures { OnOk result (values_of stack.new ≡ reduced (g.QuotePrim true) (values_of stack.old)) }
{
    let tail = pop_tail(alloc, stack);
    let token = pop_token(stack);
    let parts = quote_parts(alloc, token, Backward::new(alloc))?;
    let head = Expr::Quote(parts, line_of(token));
    finish(alloc, stack, Begun::Given(head), tail)
}

/// A text with embedded expressions.
pub fn embedding(alloc: Global, stack: &mut Stack<'_>) -> Result<(), AllocError>
    ensures { OnOk result (values_of stack.new ≡ reduced (g.EmbeddingPrim true) (values_of stack.old)) }
{
    let tail = pop_tail(alloc, stack);
    let exprs = pop_more_exprs(alloc, stack)?;
    let token = pop_token(stack);
    let parts = quote_parts(alloc, token, exprs)?;
    let head = Expr::Quote(parts, line_of(token));
    finish(alloc, stack, Begun::Given(head), tail)
}

/// A variable.
pub fn variable(alloc: Global, stack: &mut Stack<'_>) -> Result<(), AllocError>
    ensures { OnOk result (values_of stack.new ≡ reduced (g.VarPrim true) (values_of stack.old)) }
{
    let tail = pop_tail(alloc, stack);
    let token = pop_token(stack);
    finish(
        alloc,
        stack,
        Begun::Variable(number_of(token), line_of(token)),
        tail,
    )
}

/// A word.
pub fn word(alloc: Global, stack: &mut Stack<'_>) -> Result<(), AllocError>
    ensures { OnOk result (values_of stack.new ≡ reduced (g.WordPrim true) (values_of stack.old)) }
{
    let tail = pop_tail(alloc, stack);
    let token = pop_token(stack);
    let text = text_of(alloc, token)?;
    finish(alloc, stack, Begun::Word(text, line_of(token)), tail)
}

/// A class, with what stands after its `::`.
pub fn class(alloc: Global, stack: &mut Stack<'_>) -> Result<(), AllocError>
    ensures { OnOk result (values_of stack.new ≡ reduced (g.StaticPrim true) (values_of stack.old)) }
{
    let tail = pop_tail(alloc, stack);
    skip(stack);
    let token = pop_token(stack);
    let text = text_of(alloc, token)?;
    let made = named(alloc, text, line_of(token), tail)?;
    push(stack, Piece::Expr(made))?;
    Ok(())
}

/// An array in brackets.
pub fn bracket(alloc: Global, stack: &mut Stack<'_>) -> Result<(), AllocError>
    ensures { OnOk result (values_of stack.new ≡ reduced (g.BracketPrim true) (values_of stack.old)) }
{
    let tail = pop_tail(alloc, stack);
    skip(stack);
    let items = pop_items(alloc, stack);
    let line = pop_line(stack);
    let head = Expr::Array(items.into_items(), line);
    finish(alloc, stack, Begun::Given(head), tail)
}

/// An expression in parentheses.
pub fn paren(alloc: Global, stack: &mut Stack<'_>) -> Result<(), AllocError>
    ensures { OnOk result (values_of stack.new ≡ reduced (g.ParenPrim true) (values_of stack.old)) }
{
    let tail = pop_tail(alloc, stack);
    skip(stack);
    let inner = pop_boxed(alloc, stack)?;
    let line = pop_line(stack);
    let head = Expr::Paren(inner, line);
    finish(alloc, stack, Begun::Given(head), tail)
}

/// `isset` with its places.
pub fn isset(alloc: Global, stack: &mut Stack<'_>) -> Result<(), AllocError>
    ensures { OnOk result (values_of stack.new ≡ reduced (g.IssetPrim true) (values_of stack.old)) }
{
    let tail = pop_tail(alloc, stack);
    skip(stack);
    let places = pop_more_exprs(alloc, stack)?;
    skip(stack);
    let line = pop_line(stack);
    let head = Expr::Isset(places.into_items(), line);
    finish(alloc, stack, Begun::Given(head), tail)
}

/// `empty` with its expression.
pub fn empty(alloc: Global, stack: &mut Stack<'_>) -> Result<(), AllocError>
    ensures { OnOk result (values_of stack.new ≡ reduced (g.EmptyPrim true) (values_of stack.old)) }
{
    let tail = pop_tail(alloc, stack);
    skip(stack);
    let inner = pop_boxed(alloc, stack)?;
    skip(stack);
    let line = pop_line(stack);
    let head = Expr::Empty(inner, line);
    finish(alloc, stack, Begun::Given(head), tail)
}

/// `exit`, with what is given to it.
pub fn exit(alloc: Global, stack: &mut Stack<'_>) -> Result<(), AllocError>
    ensures { OnOk result (values_of stack.new ≡ reduced (g.ExitPrim true) (values_of stack.old)) }
{
    let tail = pop_tail(alloc, stack);
    let line = pop_line(stack);
    let head = Expr::Exit(line);
    finish(alloc, stack, Begun::Given(head), tail)
}

/// `new` with its class.
pub fn new(alloc: Global, stack: &mut Stack<'_>) -> Result<(), AllocError>
    ensures { OnOk result (values_of stack.new ≡ reduced (g.NewPrim true) (values_of stack.old)) }
{
    let tail = pop_tail(alloc, stack);
    let class = pop(stack);
    let line = pop_line(stack);
    let begun = new_of(alloc, class, line);
    finish(alloc, stack, begun, tail)
}

/// The class, or the variable that names it.
fn new_of(alloc: Global, class: Piece<'_>, line: u32) -> Begun
    ensures { begun_of result ≡ spec.new_in (value_of class.entry) line }
{
    match class {
        Piece::Var(number) => Begun::NewVariable(number, line),
        Piece::Class(name) => Begun::NewClass(name, line),
        other => {
            drop(other);
            Begun::NewClass(no_class(alloc), line)
        }
    }
}
