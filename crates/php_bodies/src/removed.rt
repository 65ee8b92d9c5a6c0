// Placeholders.

ghost use Rattle.std.specs.Prelude.{◌≡◌, [], ◌∷◌};
ghost use Rattle.std.specs.declared.option.Option.TheVariants.{Some};
ghost use Rattle.app_load.specs.Parts.{part_of};
ghost use Rattle.php_tree.specs.StatementOf.{statement_of};
ghost use Rattle.php_world.specs.Naming.{Naming};
ghost use Rattle.php_rest.specs.Named.{block_named};
ghost use Rattle.php_bodies.specs.Look.{IsAt};
ghost use Rattle.php_bodies.specs.Removed as spec;

use php_rest::Tail;
use php_tree::stmt::Stmt;
use sqlite_items::Items;

// Whether a statement is a placeholder.
#[tactic(auto, using(php_tree::proofs::Statements::statements))]
fn is_removed(s: &Stmt) -> bool
    ensures { result ≡ spec.is_removed (statement_of s.now) }
{
    match s {
        Stmt::Removed(_, _, _, _) => true,
        Stmt::Empty(_) => false,
        Stmt::Block(_, _) => false,
        Stmt::Static(_, _) => false,
        Stmt::Function(_, _) => false,
        Stmt::Const(_, _) => false,
        Stmt::Inline(_, _) => false,
        Stmt::Echo(_, _) => false,
        Stmt::Expr(_, _) => false,
        Stmt::If(_, _, _) => false,
        Stmt::While(_, _, _) => false,
        Stmt::Do(_, _, _) => false,
        Stmt::For(_, _, _, _, _) => false,
        Stmt::Foreach(_, _, _, _, _) => false,
        Stmt::Switch(_, _, _) => false,
        Stmt::Break(_, _) => false,
        Stmt::Continue(_, _) => false,
        Stmt::Return(_, _) => false,
        Stmt::Global(_, _) => false,
        Stmt::Unset(_, _) => false,
        Stmt::Throw(_, _) => false,
        Stmt::Try(_, _, _) => false,
        Stmt::Class(_, _) => false,
    }
}

// Statements that are one, unless it is a placeholder.
fn unless_stub<'t>(statements: &'t Items<Stmt>, first: &Stmt) -> Option<&'t Items<Stmt>>
    ensures { statements.now ≡ first.now ∷ [] → (t : Naming) → IsAt t (Some (part_of (block_named t statements.now))) result }
{
    if is_removed(first) {
        return None;
    }
    Some(statements)
}

/// The statements of a file or body, unless they are its placeholder.
pub(crate) fn unless_removed(statements: &Items<Stmt>) -> Option<&Items<Stmt>>
    ensures { (t : Naming) → IsAt t (Some (part_of (block_named t statements.now))) result }
{
    match Tail::new(statements).cut() {
        None => Some(statements),
        Some((first, more)) => {
            if more.is_empty() {
                return unless_stub(statements, first);
            }
            Some(statements)
        }
    }
}
