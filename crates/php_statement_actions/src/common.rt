//! What several rules take off the stack.

ghost use Rattle.std.specs.Prelude.{◌≡◌, ◌∷◌, IfOk};
ghost use Rattle.php_grammar.specs.Act as spec;
ghost use Rattle.php_grammar.specs.Values.{as_class, as_names, as_stmt};
ghost use Rattle.php_pieces.specs.Pieces.{values_of};
ghost use Rattle.php_pieces.specs.Stacks.{top, under};
ghost use Rattle.php_tree.specs.StatementOf.{statements_of};

use backward_list::Backward;
use php_pieces::stack::Stack;
use php_popped::lists::pop_names;
use php_popped::parts::{pop_class, pop_stmt};
use php_tree::name::ClassName;
use php_tree::stmt::Stmt;
use sqlite_items::Items;
use std::alloc::{AllocError, Global};

/// One statement as a list.
pub fn pop_one(alloc: Global, stack: &mut Stack<'_>) -> Result<Items<Stmt>, AllocError>
    ensures value { IfOk result (λ stmts. statements_of stmts ≡ spec.one (as_stmt (top (values_of stack.old)))) }
    ensures rest { values_of stack.new ≡ under (values_of stack.old) }
{
    let stmt = pop_stmt(stack);
    let mut stmts = Items::new(alloc);
    stmts.push(stmt)?;
    Ok(stmts)
}

/// Names, and the one before them in front of them.
pub fn pop_more_names(
    alloc: Global,
    stack: &mut Stack<'_>,
) -> Result<Backward<ClassName>, AllocError>
    ensures value { IfOk result (λ names. names
        ≡ as_class (top (under (values_of stack.old))) ∷ as_names (top (values_of stack.old))) }
    ensures rest { IfOk result (λ _. values_of stack.new ≡ under (under (values_of stack.old))) }
{
    let mut names = pop_names(alloc, stack);
    let name = pop_class(alloc, stack);
    names.push(name)?;
    Ok(names)
}
