// `++` and `--`.

ghost use Rattle.std.specs.Prelude.{◌≡◌};
ghost use Rattle.php_values.specs.Data.{data_of};
ghost use Rattle.php_values.specs.Answers.{GivesData};
ghost use Rattle.php_world.specs.Stepping as spec;

use php_values::{Number, Value, ValueFault, is_numeric, leading_number};
use std::alloc::AllocError;

/// `++` or `--`.
#[derive(Clone, Copy, Debug, PartialEq, Eq)]
pub enum Direction {
    Up,
    Down,
}

fn stepped_int(way: Direction, n: i64) -> Result<Value, ValueFault>
    ensures { GivesData (spec.stepped_int way n) result }
{
    let stepped = match way {
        Direction::Up => n.checked_add(1),
        Direction::Down => n.checked_sub(1),
    };
    match stepped {
        Some(n) => Ok(Value::Int(n)),
        None => Err(ValueFault::Float),
    }
}

fn stepped_text(way: Direction, text: &[u8]) -> Result<Value, ValueFault>
    ensures { GivesData (spec.stepped_text way text.now) result }
{
    if !is_numeric(text) {
        return Err(ValueFault::Kind);
    }
    match leading_number(text) {
        Number::Whole(n) => stepped_int(way, n),
        Number::Missing => Err(ValueFault::Kind),
        Number::FloatForm => Err(ValueFault::Kind),
    }
}

/// The value after `++` or `--`. `Kind` is the fatal `type`, and `Float` the fatal of that name.
pub fn stepped(way: Direction, value: &Value) -> Result<Value, ValueFault>
    ensures { GivesData (spec.stepped way (data_of value.now)) result }
{
    match value {
        Value::Null => match way {
            Direction::Up => Ok(Value::Int(1)),
            Direction::Down => Ok(Value::Null),
        },
        Value::Bool(b) => Ok(Value::Bool(*b)),
        Value::Int(n) => stepped_int(way, *n),
        Value::Bytes(text) => stepped_text(way, text.as_slice()),
        Value::List(_) => Err(ValueFault::Kind),
        Value::Object(_) => Err(ValueFault::Kind),
    }
}
