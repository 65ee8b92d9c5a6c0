// Which statements begin with a tick.

ghost use Rattle.std.specs.Prelude.{◌≡◌};
ghost use Rattle.php_tree.specs.StatementOf.{statement_of};
ghost use Rattle.php_statement_steps.specs.Kinds as spec;

use php_tree::stmt::Stmt;

/// What stands before a statement: nothing, or a tick, behind which `Own` ones have steps of their own: `switch`,
/// `return`, and what declares something.
#[derive(Clone, Copy, Debug, PartialEq, Eq)]
pub enum StmtKind {
    Quiet,
    Plain,
    Own,
}

/// Of which kind a statement is.
#[tactic(auto, using(php_tree::proofs::Statements::statements))]
pub fn kind_of(s: &Stmt) -> StmtKind
    ensures { result ≡ spec.kind_of (statement_of s.now) }
{
    match s {
        Stmt::Empty(_) => StmtKind::Quiet,
        Stmt::Block(_, _) => StmtKind::Quiet,
        Stmt::Removed(_, _, _, _) => StmtKind::Quiet,
        Stmt::Static(_, _) => StmtKind::Own,
        Stmt::Function(_, _) => StmtKind::Own,
        Stmt::Const(_, _) => StmtKind::Own,
        Stmt::Inline(_, _) => StmtKind::Plain,
        Stmt::Echo(_, _) => StmtKind::Plain,
        Stmt::Expr(_, _) => StmtKind::Plain,
        Stmt::If(_, _, _) => StmtKind::Plain,
        Stmt::While(_, _, _) => StmtKind::Plain,
        Stmt::Do(_, _, _) => StmtKind::Plain,
        Stmt::For(_, _, _, _, _) => StmtKind::Plain,
        Stmt::Foreach(_, _, _, _, _) => StmtKind::Plain,
        Stmt::Switch(_, _, _) => StmtKind::Own,
        Stmt::Break(_, _) => StmtKind::Plain,
        Stmt::Continue(_, _) => StmtKind::Plain,
        Stmt::Return(_, _) => StmtKind::Own,
        Stmt::Global(_, _) => StmtKind::Plain,
        Stmt::Unset(_, _) => StmtKind::Plain,
        Stmt::Throw(_, _) => StmtKind::Plain,
        Stmt::Try(_, _, _) => StmtKind::Plain,
        Stmt::Class(_, _) => StmtKind::Plain,
    }
}
