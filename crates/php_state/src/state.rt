// The state of a run.

ghost use Rattle.php_world.specs.Naming.{Naming};
ghost use Rattle.php_state.specs.Fits.{Keeps};
ghost use Rattle.php_state.specs.Output.{Counts};
ghost use Rattle.php_state.specs.Views.{world_of};

use crate::program::Program;
use php_names::NameTable;
use php_rest::Scene;
use php_tables::{Entered, Functions, PathTable};
use php_values::Value;
use php_world::Store;
use sqlite_items::Items;

/// The greatest length of the output, in bytes.
const MAX_OUTPUT: usize = 0x40_0000;

/// What a run has at a moment, but for its frames. Contracts see it by `world_of` and a numbering of names.
#[derive(Drop)]
pub struct State<'a> {
    pub store: Store,
    pub scene: Scene<'a>,
    /// In the order in which they were declared.
    pub functions: Functions<'a>,
    pub constants: NameTable<Value>,
    pub entered: Entered<'a>,
    /// The texts of the static variables that were used, by the numbers of their declarations.
    pub statics: PathTable,
    /// How many bytes were put out.
    pub printed: usize,
    /// The path of the script that was asked for.
    pub script: &'a Items<u8>,
    pub program: &'a Program,
}

impl<'a> State<'a> {
    /// Counts bytes that are put out, where the output is not too long with them.
    pub fn count_output(&mut self, bytes: usize) -> bool
        ensures counts { (t : Naming) → Counts bytes (world_of t self.old) (world_of t self.new) result }
        ensures keeps { Keeps self.old self.new }
    {
        if self.printed > MAX_OUTPUT || bytes > MAX_OUTPUT - self.printed {
            return false;
        }
        self.printed += bytes;
        true
    }
}
