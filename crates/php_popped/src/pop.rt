//! What is made of the newest at once.

ghost use Rattle.std.specs.Prelude.{◌≡◌, IfOk};
ghost use Rattle.php_grammar.specs.Act as spec;
ghost use Rattle.php_grammar.specs.Values.{as_token, as_expr, as_exprs};
ghost use Rattle.php_pieces.specs.Pieces.{values_of};
ghost use Rattle.php_pieces.specs.Stacks.{top, under};
ghost use Rattle.php_tree.specs.ExpressionOf.{expression_of, expressions_of};
ghost use Rattle.php_tree.specs.Expressions as x;

use crate::lists::pop_exprs;
use crate::parts::{pop_expr, pop_token};
use crate::token;
use backward_list::Backward;
use php_pieces::stack::Stack;
use php_tree::expr::Expr;
use php_tree::name::{ClassName, ConstName, FunName, MemberName};
use sqlite_items::{Boxed, Items};
use std::alloc::{AllocError, Global};

/// The line of a token, from 1.
pub fn pop_line(stack: &mut Stack<'_>) -> u32
    ensures value { result ≡ (as_token (top (values_of stack.old))).line }
    ensures rest { values_of stack.new ≡ under (values_of stack.old) }
{
    let token = pop_token(stack);
    token::line_of(token)
}

/// The number of a variable.
pub fn pop_number(stack: &mut Stack<'_>) -> u32
    ensures value { result ≡ (as_token (top (values_of stack.old))).number }
    ensures rest { values_of stack.new ≡ under (values_of stack.old) }
{
    let token = pop_token(stack);
    token::number_of(token)
}

/// The text of a token.
pub fn pop_bytes(alloc: Global, stack: &mut Stack<'_>) -> Result<Items<u8>, AllocError>
    ensures value { IfOk result (λ text. text ≡ (as_token (top (values_of stack.old))).text) }
    ensures rest { values_of stack.new ≡ under (values_of stack.old) }
{
    let token = pop_token(stack);
    token::text_of(alloc, token)
}

pub fn pop_class_name(alloc: Global, stack: &mut Stack<'_>) -> Result<ClassName, AllocError>
    ensures value { IfOk result (λ name. name ≡ spec.class_name (as_token (top (values_of stack.old)))) }
    ensures rest { values_of stack.new ≡ under (values_of stack.old) }
{
    let token = pop_token(stack);
    token::class_name(alloc, token)
}

pub fn pop_member_name(alloc: Global, stack: &mut Stack<'_>) -> Result<MemberName, AllocError>
    ensures value { IfOk result (λ name. name ≡ spec.member_name (as_token (top (values_of stack.old)))) }
    ensures rest { values_of stack.new ≡ under (values_of stack.old) }
{
    let token = pop_token(stack);
    token::member_name(alloc, token)
}

pub fn pop_fun_name(alloc: Global, stack: &mut Stack<'_>) -> Result<FunName, AllocError>
    ensures value { IfOk result (λ name. name ≡ spec.fun_name (as_token (top (values_of stack.old)))) }
    ensures rest { values_of stack.new ≡ under (values_of stack.old) }
{
    let token = pop_token(stack);
    token::fun_name(alloc, token)
}

pub fn pop_const_name(alloc: Global, stack: &mut Stack<'_>) -> Result<ConstName, AllocError>
    ensures value { IfOk result (λ name. name ≡ spec.const_name (as_token (top (values_of stack.old)))) }
    ensures rest { values_of stack.new ≡ under (values_of stack.old) }
{
    let token = pop_token(stack);
    token::const_name(alloc, token)
}

/// An expression on the heap.
pub fn pop_boxed(alloc: Global, stack: &mut Stack<'_>) -> Result<Boxed<Expr>, AllocError>
    ensures value { IfOk result (λ expr. expression_of expr ≡ as_expr (top (values_of stack.old))) }
    ensures rest { values_of stack.new ≡ under (values_of stack.old) }
{
    let expr = pop_expr(stack);
    Boxed::new(alloc, expr)
}

/// Expressions, and the one before them in front of them.
pub fn pop_more_exprs(alloc: Global, stack: &mut Stack<'_>) -> Result<Backward<Expr>, AllocError>
    ensures value { IfOk result (λ exprs. expressions_of exprs
        ≡ x.expression (as_expr (top (under (values_of stack.old)))) (as_exprs (top (values_of stack.old)))) }
    ensures rest { IfOk result (λ _. values_of stack.new ≡ under (under (values_of stack.old))) }
{
    let mut exprs = pop_exprs(alloc, stack);
    let first = pop_expr(stack);
    exprs.push(first)?;
    Ok(exprs)
}
