//! What stands after the head of an operand.
#![tactic(auto, using(php_tree::proofs::Expressions::expressions), unfolding(php_grammar::specs::Act::act, php_grammar::specs::Grammar::production))]

ghost use Rattle.std.specs.Prelude.{◌≡◌, OnOk};
ghost use Rattle.php_grammar.specs.declared.part.Rule.TheVariants as g;
ghost use Rattle.php_pieces.specs.Pieces.{values_of};
ghost use Rattle.php_pieces.specs.Stacks.{reduced};
ghost use Rattle.std.specs.Prelude.{List, ◌∷◌, true};
ghost use Rattle.php_building.specs.Parts.{tail_of, first_of};
ghost use Rattle.php_grammar.specs.Act as spec;
ghost use Rattle.php_grammar.specs.declared.token.Kind.TheVariants as k;
ghost use Rattle.php_tree.specs.ExpressionOf.{accesses_of};
ghost use Rattle.php_tree.specs.declared.expr.Expr.{Expr};
ghost use Rattle.php_tree.specs.declared.expr.Access.{Access};

use php_building::part::{First, Tail};
use php_pieces::piece::Piece;
use php_pieces::stack::{Stack, push, skip};
use php_popped::lists::pop_exprs;
use php_popped::parts::{pop_expr, pop_maybe, pop_tail};
use php_popped::pop::pop_member_name;
use php_tree::expr::{Access, Expr};
use php_tree::name::MemberName;
use std::alloc::{AllocError, Global};

/// The same, with something else directly after the head.
fn begun_by(first: First, tail: Tail) -> Tail
    ensures { tail_of result ≡ record (tail_of tail) { first = first_of first } }
{
    let Tail {
        first: _first,
        accesses,
        ending,
    } = tail;
    Tail {
        first,
        accesses,
        ending,
    }
}

/// A static property after a class and `::`.
pub fn static_property(alloc: Global, stack: &mut Stack<'_>) -> Result<(), AllocError>
    ensures { OnOk result (values_of stack.new ≡ reduced (g.StaticProperty true) (values_of stack.old)) }
{
    let tail = pop_tail(alloc, stack);
    let name = pop_member_name(alloc, stack)?;
    push(stack, Piece::Tail(begun_by(First::AtProperty(name), tail)))?;
    Ok(())
}

/// `class` after a class and `::`.
pub fn class_form(alloc: Global, stack: &mut Stack<'_>) -> Result<(), AllocError>
    ensures { OnOk result (values_of stack.new ≡ reduced (g.ClassForm true) (values_of stack.old)) }
{
    let tail = pop_tail(alloc, stack);
    skip(stack);
    push(stack, Piece::Tail(begun_by(First::AtClass, tail)))?;
    Ok(())
}

/// Another member after a class and `::`.
pub fn static_member(alloc: Global, stack: &mut Stack<'_>) -> Result<(), AllocError>
    ensures { OnOk result (values_of stack.new ≡ reduced (g.StaticMember k.Word true) (values_of stack.old)) }
{
    let tail = pop_tail(alloc, stack);
    let name = pop_member_name(alloc, stack)?;
    push(stack, Piece::Tail(with_member(name, tail)))?;
    Ok(())
}

/// A member after `::`, a call where arguments stand after it.
fn with_member(name: MemberName, tail: Tail) -> Tail
    ensures { tail_of result ≡ record (tail_of tail) { first = spec.member_first name (tail_of tail).first } }
{
    let Tail {
        first,
        accesses,
        ending,
    } = tail;
    let first = match first {
        First::Arguments(args) => First::AtCall(name, args),
        other => {
            drop(other);
            First::AtMember(name)
        }
    };
    Tail {
        first,
        accesses,
        ending,
    }
}

/// Arguments.
pub fn call_args(alloc: Global, stack: &mut Stack<'_>) -> Result<(), AllocError>
    ensures { OnOk result (values_of stack.new ≡ reduced (g.CallArgs true) (values_of stack.old)) }
{
    let tail = pop_tail(alloc, stack);
    skip(stack);
    let args = pop_exprs(alloc, stack);
    skip(stack);
    push(stack, Piece::Tail(begun_by(First::Arguments(args), tail)))?;
    Ok(())
}

/// What is given to `exit`.
pub fn exit_args(alloc: Global, stack: &mut Stack<'_>) -> Result<(), AllocError>
    ensures { OnOk result (values_of stack.new ≡ reduced (g.ExitArgs true) (values_of stack.old)) }
{
    let tail = pop_tail(alloc, stack);
    skip(stack);
    let given = pop_maybe(stack);
    skip(stack);
    push(stack, Piece::Tail(begun_by(First::GivenTo(given), tail)))?;
    Ok(())
}

/// An index, before what stands after it.
pub fn at_index(alloc: Global, stack: &mut Stack<'_>) -> Result<(), AllocError>
    ensures { OnOk result (values_of stack.new ≡ reduced (g.AtIndexPlace true) (values_of stack.old)) }
{
    let tail = pop_tail(alloc, stack);
    skip(stack);
    let index = pop_expr(stack);
    let Tail {
        first,
        mut accesses,
        ending,
    } = tail;
    accesses.push(Access::Index(index))?;
    push(
        stack,
        Piece::Tail(Tail {
            first,
            accesses,
            ending,
        }),
    )?;
    Ok(())
}

/// A property or a method, before what stands after it.
pub fn member(alloc: Global, stack: &mut Stack<'_>) -> Result<(), AllocError>
    ensures { OnOk result (values_of stack.new ≡ reduced (g.PlaceMember k.Word true) (values_of stack.old)) }
{
    let tail = pop_tail(alloc, stack);
    let name = pop_member_name(alloc, stack)?;
    let Tail {
        first,
        mut accesses,
        ending,
    } = tail;
    accesses.push(member_access(name, first))?;
    push(
        stack,
        Piece::Tail(Tail {
            first: First::Nothing,
            accesses,
            ending,
        }),
    )?;
    Ok(())
}

/// A property, or a method where arguments follow.
fn member_access(name: MemberName, first: First) -> Access<Expr>
    ensures { (more : List (Access Expr)) → accesses_of (result ∷ more) ≡ spec.member_access name (first_of first) (accesses_of more) }
{
    match first {
        First::Arguments(args) => Access::Method(name, args.into_items()),
        other => {
            drop(other);
            Access::Property(name)
        }
    }
}
