// The bodies of a file, by the names of their functions.

ghost use Rattle.std.specs.Prelude.{◌≡◌, ◌∷◌, ℕ, List, IfOk, OnOk};
ghost use Rattle.php_tree.specs.Parts.{bodies_in};
ghost use Rattle.php_tree.specs.StatementOf.{statements_of};
ghost use Rattle.php_tree.specs.Statements.{Statements};
ghost use Rattle.php_names.specs.Tables.{found};
ghost use Rattle.php_bodies.specs.Collected.{body_of, bodies_of};
ghost use Rattle.php_bodies.specs.Tables.{FindsFirst, bodies_named, or_else};

use crate::collect::{Body, collect_bodies};
use php_names::NameTable;
use php_tree::stmt::Stmt;
use sqlite_items::Items;
use std::alloc::{AllocError, Global};

// Puts a body into the table, unless there is one of its name.
fn put_in<'t>(
    alloc: Global,
    table: &mut NameTable<&'t Items<Stmt>>,
    body: &Body<'t>,
) -> Result<(), AllocError>
    ensures { OnOk result ((name : List ℕ) (rest : List (List ℕ × Statements ℕ)) → or_else (found name (bodies_named table.new)) (found name rest) ≡ or_else (found name (bodies_named table.old)) (found name (body_of body.now ∷ rest))) }
{
    let name = body.name.as_slice();
    match table.get(name) {
        Some(_) => Ok(()),
        None => {
            table.add(alloc, name, body.statements)?;
            Ok(())
        }
    }
}

// Bodies under their names, the first one where several have the same.
fn by_name<'t>(alloc: Global, bodies: &[Body<'t>]) -> Result<NameTable<&'t Items<Stmt>>, AllocError>
    ensures { IfOk result (λ table. FindsFirst table (bodies_of bodies.now)) }
{
    let mut table = NameTable::new(alloc);
    for body in bodies {
        put_in(alloc, &mut table, body)?;
    }
    Ok(table)
}

/// The bodies of the functions in statements.
pub(crate) fn bodies_by_name<'t>(
    alloc: Global,
    statements: &'t [Stmt],
) -> Result<NameTable<&'t Items<Stmt>>, AllocError>
    ensures { IfOk result (λ table. FindsFirst table (bodies_in (statements_of statements.now))) }
{
    let mut bodies = Vec::new(alloc);
    collect_bodies(alloc, &mut bodies, statements)?;
    let table = by_name(alloc, bodies.as_slice())?;
    Ok(table)
}
