// What a step gave.

use php_rest::Now;

/// What comes next after a step, or behind a tick that stands before the step.
#[derive(Drop)]
pub enum Stepped<'a> {
    Quiet(Now<'a>),
    Ticked(Now<'a>),
}
