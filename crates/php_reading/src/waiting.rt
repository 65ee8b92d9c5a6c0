//! What waits until a part has been read.

use php_grammar::part::Rule;

/// What is done when a part has been read.
#[derive(Clone, Copy)]
pub enum Waiting {
    /// The part was the last one of the rule: something is made by it.
    Tail(Rule),
    /// The part was all that was asked for.
    Floor,
}
