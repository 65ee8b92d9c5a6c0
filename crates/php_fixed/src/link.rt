// Operators of a chain.

ghost use Rattle.std.specs.Prelude.{◌≡◌, option_map};
ghost use Rattle.php_values.specs.Data.{truth, data_of};
ghost use Rattle.php_meaning.specs.Operators as meaning;

use php_tree::expr::ChainOp;
use php_values::{Value, truth};

/// The value of a chain where its left operand decides it.
pub(crate) fn decided(op: ChainOp, left: &Value) -> Option<bool>
    ensures { meaning.decided op (data_of left.now) ≡ option_map truth result }
{
    match op {
        ChainOp::LowOr | ChainOp::Or => if truth(left) { Some(true) } else { None },
        ChainOp::LowAnd | ChainOp::And => if truth(left) { None } else { Some(false) },
        _ => None,
    }
}
