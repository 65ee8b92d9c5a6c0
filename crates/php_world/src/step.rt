// Steps of a path into a value, and what is done at its end.

use order_map::ByteText;
use php_values::Value;

/// `[key]` with the key as it was evaluated, `[]`, or `->name`.
#[derive(Drop)]
pub enum Step {
    At(Value),
    Next,
    Member(ByteText),
}

/// Another value in the place, or more bytes behind the text that stands there.
#[derive(Drop)]
pub enum Change {
    Put(Value),
    Grow(ByteText),
}
