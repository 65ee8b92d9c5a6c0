//! The list of a file's functions.

ghost use Rattle.std.specs.Prelude.{◌≡◌, IfOk};
ghost use Rattle.php_tree.specs.StatementOf.{statements_of};
ghost use Rattle.php_tree.specs.Functions as spec;

use crate::walk::{Found, find_statements};
use php_tree::file::FunSpan;
use php_tree::stmt::Stmt;
use sqlite_items::Items;
use std::alloc::{AllocError, Global};

/// The functions and methods with a body, with their ordinals from 1, their names in lower case and their spans.
/// More than a `u32` can count would count as want of memory.
pub fn functions(alloc: Global, statements: &[Stmt]) -> Result<Items<FunSpan>, AllocError>
    ensures { IfOk result (λ list. list ≡ spec.functions_of (statements_of statements.now)) }
{
    let mut found = Vec::new(alloc);
    find_statements(alloc, &mut found, statements)?;
    numbered(alloc, found)
}

fn numbered(alloc: Global, found: Vec<Found>) -> Result<Items<FunSpan>, AllocError>
    ensures { IfOk result (λ list. list ≡ spec.numbered 1 found.items) }
{
    let mut list = Items::new(alloc);
    let mut count: u32 = 0;
    for (name, span) in found {
        let Some(ordinal) = count.checked_add(1) else {
            return Err(AllocError);
        };
        list.push(FunSpan {
            ordinal,
            name,
            span,
        })?;
        count = ordinal;
    }
    Ok(list)
}
