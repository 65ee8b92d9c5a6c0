//! Places.
#![tactic(auto, using(php_tree::proofs::Expressions::expressions), unfolding(php_grammar::specs::Act::act, php_grammar::specs::Grammar::production))]

ghost use Rattle.std.specs.Prelude.{◌≡◌, OnOk};
ghost use Rattle.php_grammar.specs.declared.part.Rule.TheVariants as g;
ghost use Rattle.php_pieces.specs.Pieces.{values_of};
ghost use Rattle.php_pieces.specs.Stacks.{reduced};
ghost use Rattle.std.specs.Prelude.{IfOk};
ghost use Rattle.php_grammar.specs.Act as spec;
ghost use Rattle.php_grammar.specs.declared.token.Kind.TheVariants as k;
ghost use Rattle.php_pieces.specs.Pieces.{value_of};
ghost use Rattle.php_tree.specs.ExpressionOf.{expression_of};

use php_building::operand::posted;
use php_pieces::piece::Piece;
use php_pieces::stack::{Stack, pop, push, skip};
use php_popped::lists::pop_accesses;
use php_popped::parts::{pop_expr, pop_token};
use php_popped::pop::pop_member_name;
use php_popped::token::{line_of, number_of, text_of};
use php_tree::expr::{Access, Expr};
use php_tree::name::{ClassName, ConstName};
use sqlite_items::Items;
use std::alloc::{AllocError, Global};

/// A variable with indexes and properties.
pub fn var_place(alloc: Global, stack: &mut Stack<'_>) -> Result<(), AllocError>
    ensures { OnOk result (values_of stack.new ≡ reduced g.VarPlace (values_of stack.old)) }
{
    let accesses = pop_accesses(alloc, stack);
    let token = pop_token(stack);
    let head = Expr::Var(number_of(token), line_of(token));
    let made = posted(alloc, head, accesses)?;
    push(stack, Piece::Expr(made))?;
    Ok(())
}

/// A static property with indexes and properties.
pub fn class_place(alloc: Global, stack: &mut Stack<'_>) -> Result<(), AllocError>
    ensures { OnOk result (values_of stack.new ≡ reduced g.WordPlace (values_of stack.old)) }
{
    let rest = pop(stack);
    skip(stack);
    let token = pop_token(stack);
    let text = match text_of(alloc, token) {
        Ok(text) => text,
        Err(err) => {
            drop(rest);
            return Err(err);
        }
    };
    let made = static_in(alloc, text, line_of(token), rest)?;
    push(stack, Piece::Expr(made))?;
    Ok(())
}

/// A class with what stands after its `::` in a place.
fn static_in(alloc: Global, text: Items<u8>, line: u32, rest: Piece<'_>) -> Result<Expr, AllocError>
    ensures { IfOk result (λ made. expression_of made ≡ spec.static_in text line (value_of rest.entry)) }
{
    match rest {
        Piece::Static(member, accesses) => {
            let head = Expr::StaticProperty(ClassName { text, line }, member, line);
            posted(alloc, head, accesses)
        }
        other => {
            drop(other);
            Ok(Expr::Constant(ConstName { text }, line))
        }
    }
}

/// What stands after a class and `::` in a place.
pub fn static_place(alloc: Global, stack: &mut Stack<'_>) -> Result<(), AllocError>
    ensures { OnOk result (values_of stack.new ≡ reduced g.VarStaticPlace (values_of stack.old)) }
{
    let accesses = pop_accesses(alloc, stack);
    let name = pop_member_name(alloc, stack)?;
    push(stack, Piece::Static(name, accesses))?;
    Ok(())
}

/// An index of a place.
pub fn place_index(alloc: Global, stack: &mut Stack<'_>) -> Result<(), AllocError>
    ensures { OnOk result (values_of stack.new ≡ reduced g.PlaceIndex (values_of stack.old)) }
{
    let mut accesses = pop_accesses(alloc, stack);
    skip(stack);
    let index = pop_expr(stack);
    skip(stack);
    accesses.push(Access::Index(index))?;
    push(stack, Piece::Accesses(accesses))?;
    Ok(())
}

/// A property of a place.
pub fn place_named(alloc: Global, stack: &mut Stack<'_>) -> Result<(), AllocError>
    ensures { OnOk result (values_of stack.new ≡ reduced (g.PlaceNamed k.Word) (values_of stack.old)) }
{
    let mut accesses = pop_accesses(alloc, stack);
    let name = pop_member_name(alloc, stack)?;
    accesses.push(Access::Property(name))?;
    push(stack, Piece::Accesses(accesses))?;
    Ok(())
}
