//! Names, parameters, hints and bodies.
#![tactic(auto, using(php_tree::proofs::Expressions::expressions), unfolding(php_grammar::specs::Act::act, php_grammar::specs::Grammar::production))]

ghost use Rattle.std.specs.Prelude.{◌≡◌, OnOk};
ghost use Rattle.php_grammar.specs.declared.part.Rule.TheVariants as g;
ghost use Rattle.php_pieces.specs.Pieces.{values_of};
ghost use Rattle.php_pieces.specs.Stacks.{reduced};

use crate::common::pop_more_names;
use php_building::part::Body;
use php_pieces::piece::Piece;
use php_pieces::stack::{Stack, push, skip};
use php_popped::lists::{pop_params, pop_stmts};
use php_popped::parts::{pop_amp, pop_class, pop_hint, pop_maybe, pop_param, pop_token};
use php_popped::pop::pop_line;
use php_popped::token::{class_name, line_of, number_of, span_of};
use php_tree::decl::{Hint, Param};
use std::alloc::{AllocError, Global};

/// The name of a class after a token, before others.
pub fn next_name(alloc: Global, stack: &mut Stack<'_>) -> Result<(), AllocError>
    ensures { OnOk result (values_of stack.new ≡ reduced g.NextName (values_of stack.old)) }
{
    let names = pop_more_names(alloc, stack)?;
    skip(stack);
    push(stack, Piece::Names(names))?;
    Ok(())
}

/// What a class extends.
pub fn parent(alloc: Global, stack: &mut Stack<'_>) -> Result<(), AllocError>
    ensures { OnOk result (values_of stack.new ≡ reduced g.AParent (values_of stack.old)) }
{
    let name = pop_class(alloc, stack);
    skip(stack);
    push(stack, Piece::Parent(Some(name)))?;
    Ok(())
}

/// The first of several parameters.
pub fn some_params(alloc: Global, stack: &mut Stack<'_>) -> Result<(), AllocError>
    ensures { OnOk result (values_of stack.new ≡ reduced g.SomeParams (values_of stack.old)) }
{
    let mut params = pop_params(alloc, stack);
    let param = pop_param(stack);
    params.push(param)?;
    push(stack, Piece::Params(params))?;
    Ok(())
}

/// A further parameter.
pub fn next_param(alloc: Global, stack: &mut Stack<'_>) -> Result<(), AllocError>
    ensures { OnOk result (values_of stack.new ≡ reduced g.NextParam (values_of stack.old)) }
{
    let mut params = pop_params(alloc, stack);
    let param = pop_param(stack);
    skip(stack);
    params.push(param)?;
    push(stack, Piece::Params(params))?;
    Ok(())
}

/// A parameter.
pub fn param(stack: &mut Stack<'_>) -> Result<(), AllocError>
    ensures { OnOk result (values_of stack.new ≡ reduced g.AParam (values_of stack.old)) }
{
    let default = pop_maybe(stack);
    let token = pop_token(stack);
    let by_reference = pop_amp(stack);
    let hint = pop_hint(stack);
    let param = Param {
        hint,
        by_reference,
        variable: number_of(token),
        default,
        line: line_of(token),
    };
    push(stack, Piece::Param(param))?;
    Ok(())
}

/// A `&` before a parameter.
pub fn amp(stack: &mut Stack<'_>) -> Result<(), AllocError>
    ensures { OnOk result (values_of stack.new ≡ reduced g.AnAmp (values_of stack.old)) }
{
    skip(stack);
    push(stack, Piece::Amp(true))?;
    Ok(())
}

/// A hint after `?`.
pub fn open_hint(alloc: Global, stack: &mut Stack<'_>) -> Result<(), AllocError>
    ensures { OnOk result (values_of stack.new ≡ reduced g.OpenHint (values_of stack.old)) }
{
    let name = pop_class(alloc, stack);
    let line = pop_line(stack);
    push(
        stack,
        Piece::Hint(Some(Hint {
            nullable: true,
            name,
            line,
        })),
    )?;
    Ok(())
}

/// A hint.
pub fn plain_hint(alloc: Global, stack: &mut Stack<'_>) -> Result<(), AllocError>
    ensures { OnOk result (values_of stack.new ≡ reduced g.PlainHintWord (values_of stack.old)) }
{
    let token = pop_token(stack);
    let name = class_name(alloc, token)?;
    push(
        stack,
        Piece::Hint(Some(Hint {
            nullable: false,
            name,
            line: line_of(token),
        })),
    )?;
    Ok(())
}

/// A body.
pub fn with_body(alloc: Global, stack: &mut Stack<'_>) -> Result<(), AllocError>
    ensures { OnOk result (values_of stack.new ≡ reduced g.WithBody (values_of stack.old)) }
{
    let last = pop_token(stack);
    let stmts = pop_stmts(alloc, stack);
    let first = pop_token(stack);
    let body = Body {
        stmts: stmts.into_items(),
        span: span_of(first, last),
    };
    push(stack, Piece::Body(Some(body)))?;
    Ok(())
}

/// A semicolon in place of a body.
pub fn without_body(stack: &mut Stack<'_>) -> Result<(), AllocError>
    ensures { OnOk result (values_of stack.new ≡ reduced g.WithoutBody (values_of stack.old)) }
{
    skip(stack);
    push(stack, Piece::Body(None))?;
    Ok(())
}
