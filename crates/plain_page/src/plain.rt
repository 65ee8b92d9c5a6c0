// Which trees are plain pages.
ghost use Rattle.std.specs.Prelude.{◌≡◌};
ghost use Rattle.php_tree.specs.ExpressionOf.{expression_of, expressions_of};
ghost use Rattle.php_tree.specs.StatementOf.{statement_of, statements_of};
ghost use Rattle.plain_page.specs.Pages as spec;

use php_tree::expr::Expr;
use php_tree::stmt::Stmt;

/// The bytes of a literal text; none of every other expression.
#[tactic(auto, using(php_tree::proofs::Expressions::expressions))]
pub fn text_of(expression: &Expr) -> &[u8]
    ensures { result.now ≡ spec.text_of (expression_of expression.now) }
{
    match expression {
        Expr::Text(bytes, _) => bytes.as_slice(),
        _ => &[],
    }
}

#[tactic(auto, using(php_tree::proofs::Expressions::expressions))]
fn is_text(expression: &Expr) -> bool
    ensures { result ≡ spec.is_text (expression_of expression.now) }
{
    matches!(expression, Expr::Text(_, _))
}

fn are_texts(expressions: &[Expr]) -> bool
    ensures { result ≡ spec.are_texts (expressions_of expressions.now) }
{
    for expression in expressions {
        if !is_text(expression) {
            return false;
        }
    }
    true
}

#[tactic(auto, using(php_tree::proofs::Statements::statements))]
fn is_plain(statement: &Stmt) -> bool
    ensures { result ≡ spec.is_plain (statement_of statement.now) }
{
    match statement {
        Stmt::Inline(_, _) | Stmt::Empty(_) => true,
        Stmt::Echo(expressions, _) => are_texts(expressions.as_slice()),
        _ => false,
    }
}

/// Whether statements are those of a plain page.
pub fn are_plain(statements: &[Stmt]) -> bool
    ensures { result ≡ spec.are_plain (statements_of statements.now) }
{
    for statement in statements {
        if !is_plain(statement) {
            return false;
        }
    }
    true
}
