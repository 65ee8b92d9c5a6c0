//! What is made by the rules of the grammar.

ghost use Rattle.std.specs.Prelude.{◌≡◌, OnOk};
ghost use Rattle.php_pieces.specs.Pieces.{values_of};
ghost use Rattle.php_pieces.specs.Stacks.{reduced, linked_on};

use php_grammar::part::Rule;
use php_pieces::stack::Stack;
use std::alloc::{AllocError, Global};

/// Makes nodes of what was read, on a stack.
pub trait Actions {
    /// What was read by a rule's symbols becomes one.
    fn reduce(&self, alloc: Global, rule: Rule, stack: &mut Stack<'_>) -> Result<(), AllocError>
        ensures { OnOk result (values_of stack.new ≡ reduced rule (values_of stack.old)) };

    /// An operand and what its level goes on with become one node.
    fn join(&self, alloc: Global, stack: &mut Stack<'_>) -> Result<(), AllocError>
        ensures { OnOk result (values_of stack.new ≡ linked_on (values_of stack.old)) };
}
