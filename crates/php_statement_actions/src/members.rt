//! Members of classes and interfaces.
#![tactic(auto, using(php_tree::proofs::Expressions::expressions, php_tree::proofs::Statements::statements), unfolding(php_grammar::specs::Act::act, php_grammar::specs::Grammar::production))]

ghost use Rattle.std.specs.Prelude.{◌≡◌, OnOk};
ghost use Rattle.php_grammar.specs.declared.part.Rule.TheVariants as g;
ghost use Rattle.php_pieces.specs.Pieces.{values_of};
ghost use Rattle.php_pieces.specs.Stacks.{reduced};
ghost use Rattle.std.specs.Prelude.{ℕ, ◌∷◌, map, IfOk, true};
ghost use Rattle.php_building.specs.Parts.{core_of};
ghost use Rattle.php_grammar.specs.Act as spec;
ghost use Rattle.php_grammar.specs.Values.{as_token, as_expr, as_class_constants, modded_of};
ghost use Rattle.php_pieces.specs.Stacks.{top, under};
ghost use Rattle.php_tree.specs.StatementOf.{statements_of, class_constant_of, function_of, head_of, member_of};
ghost use Rattle.php_tree.specs.Statements as y;
ghost use Rattle.php_tree.specs.Statements.{Members};

use backward_list::Backward;
use php_building::names::no_modifiers;
use php_building::part::{Body, Core, Modded};
use php_pieces::piece::Piece;
use php_pieces::stack::{Stack, push, skip};
use php_popped::lists::{pop_class_constants, pop_members, pop_params, pop_properties};
use php_popped::parts::{pop_body, pop_hint, pop_maybe, pop_modded, pop_token};
use php_popped::pop::{pop_boxed, pop_fun_name, pop_line, pop_member_name};
use php_popped::token::{detail_of, line_of, member_name};
use php_tree::decl::{ClassConst, FunDecl, Member, Modifiers, PropertyDecl, Signature};
use sqlite_items::Boxed;
use std::alloc::{AllocError, Global};

/// A member before others.
pub fn some_members(alloc: Global, stack: &mut Stack<'_>) -> Result<(), AllocError>
    ensures { OnOk result (values_of stack.new ≡ reduced (g.SomeMembers true) (values_of stack.old)) }
{
    let mut members = pop_members(alloc, stack);
    let modded = pop_modded(alloc, stack)?;
    let member = member_from(alloc, modded)?;
    members.push(member)?;
    push(stack, Piece::Members(members))?;
    Ok(())
}

fn member_from(alloc: Global, modded: Modded) -> Result<Member, AllocError>
    ensures { IfOk result (λ member. (more : Members ℕ) → member_of member more
        ≡ spec.core_before (core_of modded.core) modded.modifiers modded.line more) }
{
    let Modded {
        line,
        modifiers,
        core,
    } = modded;
    match core.into_inner() {
        Core::Constants(constants) => Ok(Member::Constants(constants.into_items(), line)),
        Core::Properties(properties) => Ok(Member::Properties(
            modifiers,
            properties.into_items(),
            line,
        )),
        Core::Function(head, body) => match body {
            Some(body) => {
                let decl = Boxed::new(alloc, method_of(head, body))?;
                Ok(Member::Method(modifiers, decl, line))
            }
            None => {
                let head = Boxed::new(alloc, head)?;
                Ok(Member::Bodiless(modifiers, head, line))
            }
        },
    }
}

fn method_of(head: Signature, body: Body) -> FunDecl
    ensures { function_of result ≡ y.with_body (head_of head) (statements_of body.stmts) body.span }
{
    let Signature {
        name,
        params,
        result: hint,
        line,
    } = head;
    FunDecl {
        name,
        params,
        result: hint,
        body: body.stmts,
        body_span: body.span,
        line,
    }
}

/// A member without words before it.
fn push_plain(alloc: Global, stack: &mut Stack<'_>, core: Core, line: u32) -> Result<(), AllocError>
    ensures { OnOk result (values_of stack.new ≡ modded_of line spec.no_modifiers (core_of core) ∷ values_of stack.old) }
{
    let core = Boxed::new(alloc, core)?;
    push(
        stack,
        Piece::Modded(Modded {
            line,
            modifiers: no_modifiers(),
            core,
        }),
    )?;
    Ok(())
}

/// `const` in a class.
pub fn constants(alloc: Global, stack: &mut Stack<'_>) -> Result<(), AllocError>
    ensures { OnOk result (values_of stack.new ≡ reduced g.ConstMember (values_of stack.old)) }
{
    skip(stack);
    let constants = pop_more_class_constants(alloc, stack)?;
    let line = pop_line(stack);
    push_plain(alloc, stack, Core::Constants(constants), line)
}

/// A further constant of a class.
pub fn next_class_const(alloc: Global, stack: &mut Stack<'_>) -> Result<(), AllocError>
    ensures { OnOk result (values_of stack.new ≡ reduced g.NextClassConst (values_of stack.old)) }
{
    let constants = pop_more_class_constants(alloc, stack)?;
    skip(stack);
    push(stack, Piece::ClassConstants(constants))?;
    Ok(())
}

/// Constants of a class, and the one before them in front of them.
fn pop_more_class_constants(
    alloc: Global,
    stack: &mut Stack<'_>,
) -> Result<Backward<ClassConst>, AllocError>
    ensures value { IfOk result (λ constants. map class_constant_of constants
        ≡ (spec.member_name (as_token (top (under (under (under (values_of stack.old)))))), as_expr (top (under (values_of stack.old)))) ∷ as_class_constants (top (values_of stack.old))) }
    ensures rest { IfOk result (λ _. values_of stack.new ≡ under (under (under (under (values_of stack.old))))) }
{
    let mut constants = pop_class_constants(alloc, stack);
    let value = pop_boxed(alloc, stack)?;
    skip(stack);
    let name = pop_member_name(alloc, stack)?;
    constants.push(ClassConst { name, value })?;
    Ok(constants)
}

/// A function of a class.
pub fn function(alloc: Global, stack: &mut Stack<'_>) -> Result<(), AllocError>
    ensures { OnOk result (values_of stack.new ≡ reduced (g.FunctionMember true) (values_of stack.old)) }
{
    let body = pop_body(stack);
    let hint = pop_hint(stack);
    skip(stack);
    let params = pop_params(alloc, stack);
    skip(stack);
    let name = pop_fun_name(alloc, stack)?;
    let line = pop_line(stack);
    let head = Signature {
        name,
        params: params.into_items(),
        result: hint,
        line,
    };
    push_plain(alloc, stack, Core::Function(head, body), line)
}

/// Properties of a class.
pub fn properties(alloc: Global, stack: &mut Stack<'_>) -> Result<(), AllocError>
    ensures { OnOk result (values_of stack.new ≡ reduced g.PropertyMember (values_of stack.old)) }
{
    skip(stack);
    let mut properties = pop_properties(alloc, stack);
    let default = pop_maybe(stack);
    let token = pop_token(stack);
    let name = member_name(alloc, token)?;
    properties.push(PropertyDecl { name, default })?;
    push_plain(alloc, stack, Core::Properties(properties), line_of(token))
}

/// A further property.
pub fn next_property(alloc: Global, stack: &mut Stack<'_>) -> Result<(), AllocError>
    ensures { OnOk result (values_of stack.new ≡ reduced g.NextProperty (values_of stack.old)) }
{
    let mut properties = pop_properties(alloc, stack);
    let default = pop_maybe(stack);
    let name = pop_member_name(alloc, stack)?;
    skip(stack);
    properties.push(PropertyDecl { name, default })?;
    push(stack, Piece::Properties(properties))?;
    Ok(())
}

/// `public`, `protected` or `private` before a member.
pub fn visible(alloc: Global, stack: &mut Stack<'_>) -> Result<(), AllocError>
    ensures { OnOk result (values_of stack.new ≡ reduced (g.VisibleMod true true true true true) (values_of stack.old)) }
{
    let Modded {
        line: _line,
        modifiers,
        core,
    } = pop_modded(alloc, stack)?;
    let token = pop_token(stack);
    let modifiers = Modifiers {
        visibility: detail_of(token).visibility(),
        ..modifiers
    };
    push(
        stack,
        Piece::Modded(Modded {
            line: line_of(token),
            modifiers,
            core,
        }),
    )?;
    Ok(())
}

/// `static` before a member.
pub fn of_class(alloc: Global, stack: &mut Stack<'_>) -> Result<(), AllocError>
    ensures { OnOk result (values_of stack.new ≡ reduced (g.StaticMod true true true true true) (values_of stack.old)) }
{
    let Modded {
        line: _line,
        modifiers,
        core,
    } = pop_modded(alloc, stack)?;
    let token = pop_token(stack);
    let modifiers = Modifiers {
        is_static: true,
        ..modifiers
    };
    push(
        stack,
        Piece::Modded(Modded {
            line: line_of(token),
            modifiers,
            core,
        }),
    )?;
    Ok(())
}

/// `abstract` before a member.
pub fn is_abstract(alloc: Global, stack: &mut Stack<'_>) -> Result<(), AllocError>
    ensures { OnOk result (values_of stack.new ≡ reduced (g.AbstractMod true true true true true) (values_of stack.old)) }
{
    let Modded {
        line: _line,
        modifiers,
        core,
    } = pop_modded(alloc, stack)?;
    let token = pop_token(stack);
    let modifiers = Modifiers {
        is_abstract: true,
        ..modifiers
    };
    push(
        stack,
        Piece::Modded(Modded {
            line: line_of(token),
            modifiers,
            core,
        }),
    )?;
    Ok(())
}

/// `final` before a member.
pub fn is_final(alloc: Global, stack: &mut Stack<'_>) -> Result<(), AllocError>
    ensures { OnOk result (values_of stack.new ≡ reduced (g.FinalMod true true true true true) (values_of stack.old)) }
{
    let Modded {
        line: _line,
        modifiers,
        core,
    } = pop_modded(alloc, stack)?;
    let token = pop_token(stack);
    let modifiers = Modifiers {
        is_final: true,
        ..modifiers
    };
    push(
        stack,
        Piece::Modded(Modded {
            line: line_of(token),
            modifiers,
            core,
        }),
    )?;
    Ok(())
}

/// `var` before a member.
pub fn var(alloc: Global, stack: &mut Stack<'_>) -> Result<(), AllocError>
    ensures { OnOk result (values_of stack.new ≡ reduced (g.VarMod true true true true true) (values_of stack.old)) }
{
    let Modded {
        line: _line,
        modifiers,
        core,
    } = pop_modded(alloc, stack)?;
    let token = pop_token(stack);
    let modifiers = Modifiers {
        is_var: true,
        ..modifiers
    };
    push(
        stack,
        Piece::Modded(Modded {
            line: line_of(token),
            modifiers,
            core,
        }),
    )?;
    Ok(())
}
