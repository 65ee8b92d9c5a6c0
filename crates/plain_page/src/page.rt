// The run of a plain page.
ghost use Rattle.std.specs.Prelude.{◌≡◌, ℕ, List, IfOk, OnOk};
ghost use Rattle.std.specs.Option.{option_map};
ghost use Rattle.app_load.specs.Files.{files_of, tree_of};
ghost use Rattle.php_frames.specs.Course.{World, Course, Then};
ghost use Rattle.php_frames.specs.Statements as frames;
ghost use Rattle.php_frames.specs.Run.{trace, Tree};
ghost use Rattle.php_frames.specs.RunResult.{result_of};
ghost use Rattle.php_frames.specs.Progress.{resumed, closed};
ghost use Rattle.php_tree.specs.ExpressionOf.{expressions_of};
ghost use Rattle.php_tree.specs.StatementOf.{statement_of, statements_of};
ghost use Rattle.plain_page.specs.Pages as spec;

use crate::plain::{are_plain, text_of};
use app_load::AppFile;
use php_frames::PageRun;
use php_tree::expr::Expr;
use php_tree::file::FileTree;
use php_tree::stmt::Stmt;
use std::alloc::{AllocError, Global};

// Puts out the literal texts among expressions.
fn print_texts(run: &mut PageRun, expressions: &[Expr]) -> Result<(), AllocError>
    ensures { OnOk result ((path : List ℕ) (course : Course) → resumed path run.old (frames.prints (spec.texts_of (expressions_of expressions.now)) course) ≡ resumed path run.new course) }
{
    for expression in expressions {
        run.print(text_of(expression))?;
    }
    Ok(())
}

// Runs a statement of a plain page.
#[tactic(auto, using(php_tree::proofs::Statements::statements))]
fn run_statement(run: &mut PageRun, statement: &Stmt) -> Result<(), AllocError>
    ensures { OnOk result ((path : List ℕ) (w : World) (k : Then) → resumed path run.old (frames.statement (spec.shown (statement_of statement.now)) w k) ≡ resumed path run.new (k w)) }
{
    match statement {
        Stmt::Inline(bytes, _) => {
            run.tick();
            run.print(bytes.as_slice())?;
        }
        Stmt::Echo(expressions, _) => {
            run.tick();
            print_texts(run, expressions.as_slice())?;
        }
        _ => {}
    }
    Ok(())
}

fn run_statements(run: &mut PageRun, statements: &[Stmt]) -> Result<(), AllocError>
    ensures { OnOk result ((path : List ℕ) (w : World) (k : Then) → resumed path run.old (frames.block (spec.shown_all (statements_of statements.now)) w k) ≡ resumed path run.new (k w)) }
{
    for statement in statements {
        run_statement(run, statement)?;
    }
    Ok(())
}

// Runs the plain page that statements are, or answers `None` where they are none.
fn run_page(alloc: Global, statements: &[Stmt], budget: u32) -> Result<Option<PageRun>, AllocError>
    ensures { IfOk result (λ found. (path : List ℕ) → option_map (λ page. result_of (trace (Tree page) path budget)) (spec.page_of (statements_of statements.now)) ≡ option_map (closed path) found) }
{
    if !are_plain(statements) {
        return Ok(None);
    }
    let mut run = PageRun::new(alloc, budget);
    run_statements(&mut run, statements)?;
    Ok(Some(run.finish()))
}

// The same of a file's tree, in which variables stand by their names.
fn run_tree(alloc: Global, tree: &FileTree, budget: u32) -> Result<Option<PageRun>, AllocError>
    ensures { IfOk result (λ found. (path : List ℕ) → option_map (λ page. result_of (trace (Tree page) path budget)) (spec.page_of (tree_of tree.now)) ≡ option_map (closed path) found) }
{
    run_page(alloc, tree.stmts.as_slice(), budget)
}

/// Runs the plain page that files are, with a budget of ticks; or answers `None` where they are no plain page.
pub fn run_files(
    alloc: Global,
    files: &[AppFile],
    budget: u32,
) -> Result<Option<PageRun>, AllocError>
    ensures { IfOk result (λ found. (path : List ℕ) → option_map (λ page. result_of (trace (Tree page) path budget)) (spec.page_of_files (files_of files.now)) ≡ option_map (closed path) found) }
{
    match files {
        [file] if file.path.as_str() == "index.php" => match &file.tree {
            Some(tree) => run_tree(alloc, tree, budget),
            None => Ok(None),
        },
        _ => Ok(None),
    }
}
