//! Single parts that are popped. Where something else stands there, something empty is given.

ghost use Rattle.std.specs.Prelude.{◌≡◌, IfOk};
ghost use Rattle.std.specs.Option.{option_copied};
ghost use Rattle.php_building.specs.Parts.{ending_of, tail_of, const_tail_of, branch_of, join_of, body_of, core_of};
ghost use Rattle.php_grammar.specs.Act.{guarded_in, arms_in, last_in, mods_in, core_in, line_in};
ghost use Rattle.php_grammar.specs.Values as v;
ghost use Rattle.php_grammar.specs.Values.{as_token, as_join, as_stmt, as_expr, as_maybe, as_branch, as_tail, as_ending, as_named, as_class, as_second, as_text, as_int, as_parent, as_hint, as_param, as_amp, as_body};
ghost use Rattle.php_pieces.specs.Pieces.{values_of};
ghost use Rattle.php_pieces.specs.Stacks.{top, under};
ghost use Rattle.php_popped.specs.Tokens.{seen};
ghost use Rattle.php_tree.specs.ExpressionOf.{expression_of, expression_or_none};
ghost use Rattle.php_tree.specs.StatementOf.{statement_of, statements_of, arms_of, parameter_of};

use backward_list::Backward;
use php_building::names::no_modifiers;
use php_building::part::{Body, ConstTail, Core, Ending, First, IfParts, Join, Modded, Tail};
use php_grammar::lexeme::Lexeme;
use php_pieces::piece::Piece;
use php_pieces::stack::{Stack, pop};
use php_tree::decl::{Hint, Param};
use php_tree::expr::{Branch, Expr};
use php_tree::name::ClassName;
use php_tree::stmt::Stmt;
use sqlite_items::{Boxed, Items};
use std::alloc::{AllocError, Global};

/// A token, where there is one.
pub fn pop_token<'t>(stack: &mut Stack<'t>) -> Option<&'t Lexeme<'t>>
    ensures value { seen (option_copied result) ≡ as_token (top (values_of stack.old)) }
    ensures rest { values_of stack.new ≡ under (values_of stack.old) }
{
    match pop(stack) {
        Piece::Leaf(token) => Some(token),
        other => {
            drop(other);
            None
        }
    }
}

/// Nothing after the head of an operand.
pub fn empty_tail(alloc: Global) -> Tail
    ensures { tail_of result ≡ v.empty_tail }
{
    Tail {
        first: First::Nothing,
        accesses: Backward::new(alloc),
        ending: Ending::Nowhere,
    }
}

/// The name that stands for none.
pub fn no_class(alloc: Global) -> ClassName
    ensures { result ≡ v.no_class }
{
    ClassName {
        text: Items::new(alloc),
        line: 0,
    }
}

/// The parameter that stands for none.
fn no_param() -> Param
    ensures { parameter_of result ≡ v.no_parameter }
{
    Param {
        hint: None,
        by_reference: false,
        variable: 0,
        default: None,
        line: 0,
    }
}

/// A statement.
#[tactic(auto, using(php_tree::proofs::Statements::statements))]
pub fn pop_stmt(stack: &mut Stack<'_>) -> Stmt
    ensures value { statement_of result ≡ as_stmt (top (values_of stack.old)) }
    ensures rest { values_of stack.new ≡ under (values_of stack.old) }
{
    match pop(stack) {
        Piece::Stmt(stmt) => stmt,
        other => {
            drop(other);
            Stmt::Empty(0)
        }
    }
}

/// An expression.
#[tactic(auto, using(php_tree::proofs::Expressions::expressions))]
pub fn pop_expr(stack: &mut Stack<'_>) -> Expr
    ensures value { expression_of result ≡ as_expr (top (values_of stack.old)) }
    ensures rest { values_of stack.new ≡ under (values_of stack.old) }
{
    match pop(stack) {
        Piece::Expr(expr) => expr,
        other => {
            drop(other);
            Expr::Exit(0)
        }
    }
}

/// An expression that may be absent.
pub fn pop_maybe(stack: &mut Stack<'_>) -> Option<Boxed<Expr>>
    ensures value { expression_or_none result ≡ as_maybe (top (values_of stack.old)) }
    ensures rest { values_of stack.new ≡ under (values_of stack.old) }
{
    match pop(stack) {
        Piece::Maybe(maybe) => maybe,
        other => {
            drop(other);
            None
        }
    }
}

/// What stands after one `?`.
#[tactic(auto, using(php_tree::proofs::Expressions::expressions))]
pub fn pop_branch(stack: &mut Stack<'_>) -> Branch<Expr>
    ensures value { branch_of result ≡ as_branch (top (values_of stack.old)) }
    ensures rest { values_of stack.new ≡ under (values_of stack.old) }
{
    match pop(stack) {
        Piece::Branch(branch) => branch,
        other => {
            drop(other);
            Branch::Short(Expr::Exit(0))
        }
    }
}

/// What stands after the head of an operand.
pub fn pop_tail(alloc: Global, stack: &mut Stack<'_>) -> Tail
    ensures value { tail_of result ≡ as_tail (top (values_of stack.old)) }
    ensures rest { values_of stack.new ≡ under (values_of stack.old) }
{
    match pop(stack) {
        Piece::Tail(tail) => tail,
        other => {
            drop(other);
            empty_tail(alloc)
        }
    }
}

/// How an operand ends.
pub fn pop_ending(stack: &mut Stack<'_>) -> Ending
    ensures value { ending_of result ≡ as_ending (top (values_of stack.old)) }
    ensures rest { values_of stack.new ≡ under (values_of stack.old) }
{
    match pop(stack) {
        Piece::Ending(ending) => ending,
        other => {
            drop(other);
            Ending::Nowhere
        }
    }
}

/// What stands after a word in a constant expression.
pub fn pop_named(stack: &mut Stack<'_>) -> ConstTail
    ensures value { const_tail_of result ≡ as_named (top (values_of stack.old)) }
    ensures rest { values_of stack.new ≡ under (values_of stack.old) }
{
    match pop(stack) {
        Piece::Named(named) => named,
        other => {
            drop(other);
            ConstTail::OnlyWord
        }
    }
}

/// The name of a class.
pub fn pop_class(alloc: Global, stack: &mut Stack<'_>) -> ClassName
    ensures value { result ≡ as_class (top (values_of stack.old)) }
    ensures rest { values_of stack.new ≡ under (values_of stack.old) }
{
    match pop(stack) {
        Piece::Class(class) => class,
        other => {
            drop(other);
            no_class(alloc)
        }
    }
}

/// The variable after `=>`, where there is one.
pub fn pop_second(stack: &mut Stack<'_>) -> Option<u32>
    ensures value { result ≡ as_second (top (values_of stack.old)) }
    ensures rest { values_of stack.new ≡ under (values_of stack.old) }
{
    match pop(stack) {
        Piece::Second(second) => second,
        other => {
            drop(other);
            None
        }
    }
}

/// A text that may be absent.
pub fn pop_text(stack: &mut Stack<'_>) -> Option<Items<u8>>
    ensures value { result ≡ as_text (top (values_of stack.old)) }
    ensures rest { values_of stack.new ≡ under (values_of stack.old) }
{
    match pop(stack) {
        Piece::Text(text) => text,
        other => {
            drop(other);
            None
        }
    }
}

/// A whole number.
pub fn pop_int(stack: &mut Stack<'_>) -> i64
    ensures value { result ≡ as_int (top (values_of stack.old)) }
    ensures rest { values_of stack.new ≡ under (values_of stack.old) }
{
    match pop(stack) {
        Piece::Int(int) => int,
        other => {
            drop(other);
            0
        }
    }
}

/// What a class extends.
pub fn pop_parent(stack: &mut Stack<'_>) -> Option<ClassName>
    ensures value { result ≡ as_parent (top (values_of stack.old)) }
    ensures rest { values_of stack.new ≡ under (values_of stack.old) }
{
    match pop(stack) {
        Piece::Parent(parent) => parent,
        other => {
            drop(other);
            None
        }
    }
}

/// What a parameter or a result has to be.
pub fn pop_hint(stack: &mut Stack<'_>) -> Option<Hint>
    ensures value { result ≡ as_hint (top (values_of stack.old)) }
    ensures rest { values_of stack.new ≡ under (values_of stack.old) }
{
    match pop(stack) {
        Piece::Hint(hint) => hint,
        other => {
            drop(other);
            None
        }
    }
}

/// A parameter.
pub fn pop_param(stack: &mut Stack<'_>) -> Param
    ensures value { parameter_of result ≡ as_param (top (values_of stack.old)) }
    ensures rest { values_of stack.new ≡ under (values_of stack.old) }
{
    match pop(stack) {
        Piece::Param(param) => param,
        other => {
            drop(other);
            no_param()
        }
    }
}

/// Whether a `&` stands there.
pub fn pop_amp(stack: &mut Stack<'_>) -> bool
    ensures value { result ≡ as_amp (top (values_of stack.old)) }
    ensures rest { values_of stack.new ≡ under (values_of stack.old) }
{
    match pop(stack) {
        Piece::Amp(amp) => amp,
        other => {
            drop(other);
            false
        }
    }
}

/// A body, which may be absent.
pub fn pop_body(stack: &mut Stack<'_>) -> Option<Body>
    ensures value { body_of result ≡ as_body (top (values_of stack.old)) }
    ensures rest { values_of stack.new ≡ under (values_of stack.old) }
{
    match pop(stack) {
        Piece::Body(body) => body,
        other => {
            drop(other);
            None
        }
    }
}

/// What a level goes on with.
pub fn pop_join(stack: &mut Stack<'_>) -> Join
    ensures value { join_of result ≡ as_join (top (values_of stack.old)) }
    ensures rest { values_of stack.new ≡ under (values_of stack.old) }
{
    match pop(stack) {
        Piece::Links(links) => Join::ByLinks(links),
        Piece::Branches(branches) => Join::ByBranches(branches),
        Piece::Step(step) => Join::ByStep(step),
        other => {
            drop(other);
            Join::ByNothing
        }
    }
}

/// What an `if` guards, and what goes on with it.
pub fn pop_if_parts(alloc: Global, stack: &mut Stack<'_>) -> IfParts
    ensures guarded { statements_of result.guarded ≡ guarded_in (top (values_of stack.old)) }
    ensures arms { arms_of result.arms ≡ arms_in (top (values_of stack.old)) }
    ensures last { statements_of result.last ≡ last_in (top (values_of stack.old)) }
    ensures rest { values_of stack.new ≡ under (values_of stack.old) }
{
    match pop(stack) {
        Piece::IfParts(parts) => parts,
        other => {
            drop(other);
            IfParts {
                guarded: Items::new(alloc),
                arms: Backward::new(alloc),
                last: Items::new(alloc),
            }
        }
    }
}

/// A member with its modifiers.
pub fn pop_modded(alloc: Global, stack: &mut Stack<'_>) -> Result<Modded, AllocError>
    ensures modifiers { IfOk result (λ member. member.modifiers ≡ mods_in (top (values_of stack.old))) }
    ensures core { IfOk result (λ member. core_of member.core ≡ core_in (top (values_of stack.old))) }
    ensures line { IfOk result (λ member. member.line ≡ line_in (top (values_of stack.old))) }
    ensures rest { IfOk result (λ _. values_of stack.new ≡ under (values_of stack.old)) }
{
    match pop(stack) {
        Piece::Modded(member) => Ok(member),
        other => {
            drop(other);
            let core = Boxed::new(alloc, Core::Constants(Backward::new(alloc)))?;
            Ok(Modded {
                line: 0,
                modifiers: no_modifiers(),
                core,
            })
        }
    }
}
