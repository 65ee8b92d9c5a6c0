//! Classes and interfaces.
#![tactic(auto, using(php_tree::proofs::Expressions::expressions, php_tree::proofs::Statements::statements), unfolding(php_grammar::specs::Act::act, php_grammar::specs::Grammar::production))]

ghost use Rattle.std.specs.Prelude.{◌≡◌, OnOk};
ghost use Rattle.php_grammar.specs.declared.part.Rule.TheVariants as g;
ghost use Rattle.php_pieces.specs.Pieces.{values_of};
ghost use Rattle.php_pieces.specs.Stacks.{reduced};
ghost use Rattle.std.specs.Prelude.{IfOk};
ghost use Rattle.php_grammar.specs.Values.{as_names, as_members};
ghost use Rattle.php_pieces.specs.Stacks.{top, under};
ghost use Rattle.php_tree.specs.StatementOf.{statement_of, members_of};
ghost use Rattle.php_tree.specs.Statements as y;

use backward_list::Backward;
use php_pieces::piece::Piece;
use php_pieces::stack::{Stack, push, skip};
use php_popped::lists::{pop_members, pop_names};
use php_popped::parts::pop_parent;
use php_popped::pop::{pop_class_name, pop_line};
use php_tree::decl::{ClassDecl, ClassKind, Member};
use php_tree::name::ClassName;
use php_tree::stmt::Stmt;
use sqlite_items::Boxed;
use std::alloc::{AllocError, Global};

/// An abstract class.
pub fn abstract_class(alloc: Global, stack: &mut Stack<'_>) -> Result<(), AllocError>
    ensures { OnOk result (values_of stack.new ≡ reduced g.AbstractClass (values_of stack.old)) }
{
    let body = pop_class_body(alloc, stack);
    let parent = pop_parent(stack);
    let name = pop_class_name(alloc, stack)?;
    skip(stack);
    let line = pop_line(stack);
    let stmt = class_of(alloc, ClassKind::Abstract, name, parent, body, line)?;
    push(stack, Piece::Stmt(stmt))?;
    Ok(())
}

/// A final class.
pub fn final_class(alloc: Global, stack: &mut Stack<'_>) -> Result<(), AllocError>
    ensures { OnOk result (values_of stack.new ≡ reduced g.FinalClass (values_of stack.old)) }
{
    let body = pop_class_body(alloc, stack);
    let parent = pop_parent(stack);
    let name = pop_class_name(alloc, stack)?;
    skip(stack);
    let line = pop_line(stack);
    let stmt = class_of(alloc, ClassKind::Final, name, parent, body, line)?;
    push(stack, Piece::Stmt(stmt))?;
    Ok(())
}

/// A class.
pub fn plain_class(alloc: Global, stack: &mut Stack<'_>) -> Result<(), AllocError>
    ensures { OnOk result (values_of stack.new ≡ reduced g.PlainClass (values_of stack.old)) }
{
    let body = pop_class_body(alloc, stack);
    let parent = pop_parent(stack);
    let name = pop_class_name(alloc, stack)?;
    let line = pop_line(stack);
    let stmt = class_of(alloc, ClassKind::Plain, name, parent, body, line)?;
    push(stack, Piece::Stmt(stmt))?;
    Ok(())
}

/// An interface.
pub fn interface(alloc: Global, stack: &mut Stack<'_>) -> Result<(), AllocError>
    ensures { OnOk result (values_of stack.new ≡ reduced g.InterfaceStmt (values_of stack.old)) }
{
    let body = pop_class_body(alloc, stack);
    let name = pop_class_name(alloc, stack)?;
    let line = pop_line(stack);
    let stmt = class_of(alloc, ClassKind::Interface, name, None, body, line)?;
    push(stack, Piece::Stmt(stmt))?;
    Ok(())
}

/// What a class implements, and its members.
#[derive(Drop)]
struct ClassBody {
    interfaces: Backward<ClassName>,
    members: Backward<Member>,
}

fn pop_class_body(alloc: Global, stack: &mut Stack<'_>) -> ClassBody
    ensures interfaces { result.interfaces ≡ as_names (top (under (under (under (values_of stack.old))))) }
    ensures members { members_of result.members ≡ as_members (top (under (values_of stack.old))) }
    ensures rest { values_of stack.new ≡ under (under (under (under (values_of stack.old)))) }
{
    skip(stack);
    let members = pop_members(alloc, stack);
    skip(stack);
    let interfaces = pop_names(alloc, stack);
    ClassBody {
        interfaces,
        members,
    }
}

fn class_of(
    alloc: Global,
    kind: ClassKind,
    name: ClassName,
    parent: Option<ClassName>,
    body: ClassBody,
    line: u32,
) -> Result<Stmt, AllocError>
    ensures { IfOk result (λ stmt. statement_of stmt
        ≡ y.class (y.with_members kind name parent body.interfaces (members_of body.members) line) line) }
{
    let decl = ClassDecl {
        kind,
        name,
        parent,
        interfaces: body.interfaces.into_items(),
        members: body.members.into_items(),
        line,
    };
    let decl = Boxed::new(alloc, decl)?;
    Ok(Stmt::Class(decl, line))
}
