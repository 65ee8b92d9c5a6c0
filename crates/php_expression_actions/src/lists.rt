//! Lists of expressions and items, and expressions that may be absent.
#![tactic(auto, using(php_tree::proofs::Expressions::expressions), unfolding(php_grammar::specs::Act::act, php_grammar::specs::Grammar::production))]

ghost use Rattle.std.specs.Prelude.{◌≡◌, OnOk};
ghost use Rattle.php_grammar.specs.declared.part.Context.TheVariants as c;
ghost use Rattle.php_grammar.specs.declared.part.Rule.TheVariants as g;
ghost use Rattle.php_pieces.specs.Pieces.{values_of};
ghost use Rattle.php_pieces.specs.Stacks.{reduced};
ghost use Rattle.std.specs.Prelude.{List, ◌∷◌};
ghost use Rattle.php_grammar.specs.Act.{an_item};
ghost use Rattle.php_tree.specs.ExpressionOf.{expression_of, expression_or_none, items_of};
ghost use Rattle.php_tree.specs.declared.expr.Expr.{Expr};
ghost use Rattle.php_tree.specs.declared.expr.Item.{Item};

use backward_list::Backward;
use php_pieces::piece::Piece;
use php_pieces::stack::{Stack, push, skip};
use php_popped::lists::pop_items;
use php_popped::parts::{pop_expr, pop_maybe};
use php_popped::pop::{pop_boxed, pop_more_exprs};
use php_tree::expr::{Expr, Item};
use sqlite_items::Boxed;
use std::alloc::{AllocError, Global};

/// The first of several expressions.
pub fn some_args(alloc: Global, stack: &mut Stack<'_>) -> Result<(), AllocError>
    ensures { OnOk result (values_of stack.new ≡ reduced g.SomeArgs (values_of stack.old)) }
{
    let exprs = pop_more_exprs(alloc, stack)?;
    push(stack, Piece::Exprs(exprs))?;
    Ok(())
}

/// A further expression of several.
pub fn next_arg(alloc: Global, stack: &mut Stack<'_>) -> Result<(), AllocError>
    ensures { OnOk result (values_of stack.new ≡ reduced g.NextArg (values_of stack.old)) }
{
    let exprs = pop_more_exprs(alloc, stack)?;
    skip(stack);
    push(stack, Piece::Exprs(exprs))?;
    Ok(())
}

/// The token that ends several expressions.
pub fn no_more_args(alloc: Global, stack: &mut Stack<'_>) -> Result<(), AllocError>
    ensures { OnOk result (values_of stack.new ≡ reduced g.QuoteEnd (values_of stack.old)) }
{
    skip(stack);
    push(stack, Piece::Exprs(Backward::new(alloc)))?;
    Ok(())
}

/// The first of several items.
pub fn some_items(alloc: Global, stack: &mut Stack<'_>) -> Result<(), AllocError>
    ensures { OnOk result (values_of stack.new ≡ reduced (g.SomeItems c.InFull) (values_of stack.old)) }
{
    let mut items = pop_items(alloc, stack);
    let value = pop_maybe(stack);
    let first = pop_expr(stack);
    items.push(item(first, value))?;
    push(stack, Piece::Items(items))?;
    Ok(())
}

/// An item: a value, or a key and its value.
fn item(first: Expr, value: Option<Boxed<Expr>>) -> Item<Expr>
    ensures { (more : List (Item Expr)) → items_of (result ∷ more) ≡ an_item (expression_of first) (expression_or_none value) (items_of more) }
{
    match value {
        None => Item::Value(first),
        Some(value) => Item::Pair(first, value.into_inner()),
    }
}

/// An expression where there may be none.
pub fn an_expr(alloc: Global, stack: &mut Stack<'_>) -> Result<(), AllocError>
    ensures { OnOk result (values_of stack.new ≡ reduced g.AnExpr (values_of stack.old)) }
{
    let expr = pop_boxed(alloc, stack)?;
    push(stack, Piece::Maybe(Some(expr)))?;
    Ok(())
}

/// An expression after a token where there may be none.
pub fn a_default(alloc: Global, stack: &mut Stack<'_>) -> Result<(), AllocError>
    ensures { OnOk result (values_of stack.new ≡ reduced g.ADefault (values_of stack.old)) }
{
    let expr = pop_boxed(alloc, stack)?;
    skip(stack);
    push(stack, Piece::Maybe(Some(expr)))?;
    Ok(())
}
