// What comes once a file that was included ended.

ghost use Rattle.std.specs.Prelude.{◌≡◌};
ghost use Rattle.php_world.specs.Naming.{Naming};
ghost use Rattle.php_meaning.specs.Course.{Then};
ghost use Rattle.php_meaning.specs.Stores.{file_back};
ghost use Rattle.php_rest.specs.Rest.{next_of, signal_of};
ghost use Rattle.php_rest.specs.Views.{context_of, position_of};
ghost use Rattle.php_state.specs.Fits.{Keeps};
ghost use Rattle.php_state.specs.Views.{world_of};

use php_rest::{Ending, Now, Scene};
use php_state::State;
use php_values::Value;

/// Ends a file that was included: its includer stands where it stood, and goes on with what the file returned, else with 1.
pub fn end_include<'a>(includer: Scene<'a>, how: Ending, state: &mut State<'a>) -> Now<'a>
    ensures keeps { Keeps state.old state.new }
    ensures law { (t : Naming) (k : Then) → next_of t result (world_of t state.new) k ≡ file_back (context_of includer.entry) (position_of includer.entry) k (signal_of how) (world_of t state.old) }
{
    state.scene = includer;
    match how {
        Ending::Returned(value) => Now::Give(value),
        Ending::Normal => Now::Give(Value::Int(1)),
        Ending::Breaks(_) => Now::Give(Value::Int(1)),
        Ending::Continues(_) => Now::Give(Value::Int(1)),
    }
}
