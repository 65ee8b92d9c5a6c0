//! What the grammar makes of its rules, as the reader calls it.

use php_actions::{join, reduce};
use php_grammar::part::Rule;
use php_parsing::Actions;
use php_pieces::stack::Stack;
use std::alloc::{AllocError, Global};

/// The grammar's own actions.
#[derive(Clone, Copy, Drop)]
pub struct GrammarActions;

impl Actions for GrammarActions {
    fn reduce(&self, alloc: Global, rule: Rule, stack: &mut Stack<'_>) -> Result<(), AllocError> {
        reduce(alloc, rule, stack)
    }

    fn join(&self, alloc: Global, stack: &mut Stack<'_>) -> Result<(), AllocError> {
        join(alloc, stack)
    }
}
