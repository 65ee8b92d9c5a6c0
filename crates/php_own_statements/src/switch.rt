// The tests of `switch`.
#![tactic(auto)]

ghost use Rattle.std.specs.Prelude.{◌≡◌, IfOk};
ghost use Rattle.php_values.specs.Data.{data_of};
ghost use Rattle.php_meaning.specs.Statements as statements;
ghost use Rattle.php_rest.specs.Laws.{Steps};
ghost use Rattle.php_rest.specs.Named.{block_named, cases_named};
ghost use Rattle.php_rest.specs.Rest.{on_case};
ghost use Rattle.php_rest.specs.Tails.{left_in};

use backward_list::Backward;
use php_rest::{Ending, Frame, Now, StmtFrame, Tail, value_refused};
use php_tree::stmt::{Stmt, SwitchArm};
use php_values::{Value, loose_eq};
use sqlite_items::Items;
use std::alloc::{AllocError, Global};

// The first `default` and all that follows it.
fn begin_default<'a>(
    arms: Tail<'a, SwitchArm>,
    stack: &mut Backward<Frame<'a>>,
) -> Result<Now<'a>, AllocError>
    ensures { IfOk result (Steps stack.old stack.new (λ t. statements.default_of (cases_named t (left_in arms.entry)))) }
{
    let mut arms = arms;
    'arms: while let Some((first, more)) = arms.cut() {
        match first {
            SwitchArm::Case(_, _) => arms = more,
            SwitchArm::Default(body) => {
                stack.push(Frame::OfStmt(StmtFrame::Bodies(more)))?;
                return Ok(Now::Block(Tail::new(body)));
            }
        }
    }
    Ok(Now::End(Ending::Normal))
}

/// The arms whose values are still to be compared with that of the `switch`. `all` are all arms.
pub(crate) fn begin_cases<'a>(
    value: Value,
    arms: Tail<'a, SwitchArm>,
    all: &'a Items<SwitchArm>,
    stack: &mut Backward<Frame<'a>>,
) -> Result<Now<'a>, AllocError>
    ensures { IfOk result (Steps stack.old stack.new (λ t. statements.cases (cases_named t (left_in arms.entry)) (statements.default_of (cases_named t all.now)) (data_of value))) }
{
    let mut arms = arms;
    'arms: while let Some((first, more)) = arms.cut() {
        match first {
            SwitchArm::Case(e, body) => {
                stack.push(Frame::OfStmt(StmtFrame::CaseOf(value, body, more, all)))?;
                return Ok(Now::Evaluate(e.get()));
            }
            SwitchArm::Default(_) => arms = more,
        }
    }
    let now = begin_default(Tail::new(all), stack)?;
    Ok(now)
}

/// What is done with the value of an arm.
pub(crate) fn compared<'a>(
    alloc: Global,
    value: Value,
    case: &Value,
    body: &'a Items<Stmt>,
    more: Tail<'a, SwitchArm>,
    all: &'a Items<SwitchArm>,
    stack: &mut Backward<Frame<'a>>,
) -> Result<Now<'a>, AllocError>
    ensures { IfOk result (Steps stack.old stack.new (λ t. on_case (data_of value) (block_named t body.now) (cases_named t (left_in more.entry)) (cases_named t all.now) (data_of case.now))) }
{
    match loose_eq(alloc, &value, case) {
        Ok(same) => {
            if same {
                stack.push(Frame::OfStmt(StmtFrame::Bodies(more)))?;
                return Ok(Now::Block(Tail::new(body)));
            }
            let now = begin_cases(value, more, all, stack)?;
            Ok(now)
        }
        Err(fault) => Ok(Now::Fail(value_refused(fault)?)),
    }
}
