// The arms of `switch`.

ghost use Rattle.std.specs.Prelude.{◌≡◌, IfOk};
ghost use Rattle.php_meaning.specs.Statements as statements;
ghost use Rattle.php_rest.specs.Laws.{Steps};
ghost use Rattle.php_rest.specs.Named.{cases_named};
ghost use Rattle.php_rest.specs.Tails.{left_in};

use backward_list::Backward;
use php_rest::{Ending, Frame, Now, StmtFrame, Tail};
use php_tree::stmt::SwitchArm;
use std::alloc::AllocError;

/// The arms that run once one was chosen.
pub fn begin_bodies<'a>(
    arms: Tail<'a, SwitchArm>,
    stack: &mut Backward<Frame<'a>>,
) -> Result<Now<'a>, AllocError>
    ensures { IfOk result (Steps stack.old stack.new (λ t. statements.bodies (cases_named t (left_in arms.entry)))) }
{
    let Some((first, more)) = arms.cut() else {
        return Ok(Now::End(Ending::Normal));
    };
    stack.push(Frame::OfStmt(StmtFrame::Bodies(more)))?;
    match first {
        SwitchArm::Case(_, body) => Ok(Now::Block(Tail::new(body))),
        SwitchArm::Default(body) => Ok(Now::Block(Tail::new(body))),
    }
}
