// Statements one after another.

ghost use Rattle.std.specs.Prelude.{◌≡◌, IfOk};
ghost use Rattle.php_meaning.specs.Statements as statements;
ghost use Rattle.php_rest.specs.Laws.{Steps};
ghost use Rattle.php_rest.specs.Named.{block_named};
ghost use Rattle.php_rest.specs.Tails.{left_in};

use backward_list::Backward;
use php_rest::{Ending, Frame, Now, StmtFrame, Tail};
use php_tree::stmt::Stmt;
use std::alloc::AllocError;

/// The statements of a block. Nothing waits for its last one.
pub fn begin_block<'a>(
    block: Tail<'a, Stmt>,
    stack: &mut Backward<Frame<'a>>,
) -> Result<Now<'a>, AllocError>
    ensures { IfOk result (Steps stack.old stack.new (λ t. statements.statements (block_named t (left_in block.entry)))) }
{
    let Some((first, more)) = block.cut() else {
        return Ok(Now::End(Ending::Normal));
    };
    if more.is_empty() {
        return Ok(Now::Run(first));
    }
    stack.push(Frame::OfStmt(StmtFrame::Then(more)))?;
    Ok(Now::Run(first))
}
