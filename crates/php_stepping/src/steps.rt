// The steps of a run.

ghost use Rattle.std.specs.Prelude.{◌≡◌, IfOk};
ghost use Rattle.php_values.specs.Data.{data_of};
ghost use Rattle.php_world.specs.Naming.{Naming};
ghost use Rattle.php_meaning.specs.Course.{Gives};
ghost use Rattle.php_meaning.specs.Statements as statements;
ghost use Rattle.php_meaning.specs.World.{World};
ghost use Rattle.php_rest.specs.Named.{block_named};
ghost use Rattle.php_rest.specs.Rest.{after, next_of, signal_of};
ghost use Rattle.php_state.specs.Fits.{Keeps};
ghost use Rattle.php_stepping.specs.Alike.{Goes, GoesBy, with_functions, hoisted_or};

use crate::stepped::Stepped;
use backward_list::Backward;
use php_rest::{Ending, Frame, Now};
use php_state::State;
use php_tables::Functions;
use php_tree::stmt::Stmt;
use php_values::Value;
use sqlite_items::Items;
use std::alloc::{AllocError, Global};

/// What a machine asks of the language, one step at a time.
pub trait Steps {
    /// A step of what comes next, where that is seen from outside by a tick at most. Anything else is handed back.
    fn step<'a>(
        &self,
        alloc: Global,
        now: Now<'a>,
        state: &mut State<'a>,
        stack: &mut Backward<Frame<'a>>,
    ) -> Result<Stepped<'a>, AllocError>
        ensures law { IfOk result (GoesBy state.old state.new stack.old stack.new (λ t. next_of t now.entry)) }
        ensures keeps { IfOk result (λ _. Keeps state.old state.new) };

    /// What a frame does with a value.
    fn give<'a>(
        &self,
        alloc: Global,
        frame: Frame<'a>,
        value: Value,
        state: &mut State<'a>,
        stack: &mut Backward<Frame<'a>>,
    ) -> Result<Now<'a>, AllocError>
        ensures law { IfOk result (Goes state.old state.new stack.old stack.new (λ t w k. after t frame.entry k (Gives (data_of value)) w)) }
        ensures keeps { IfOk result (λ _. Keeps state.old state.new) };

    /// What a frame does with the end of a statement.
    fn end<'a>(
        &self,
        alloc: Global,
        frame: Frame<'a>,
        ending: Ending,
        state: &mut State<'a>,
        stack: &mut Backward<Frame<'a>>,
    ) -> Result<Now<'a>, AllocError>
        ensures law { IfOk result (Goes state.old state.new stack.old stack.new (λ t w k. after t frame.entry k (signal_of ending) w)) }
        ensures keeps { IfOk result (λ _. Keeps state.old state.new) };

    /// Declares the functions that stand directly in a file, or tells the line of the first one that is refused.
    fn hoist<'a>(
        &self,
        alloc: Global,
        path: &'a Items<u8>,
        file: &'a [Stmt],
        functions: &mut Functions<'a>,
    ) -> Result<Option<u32>, AllocError>
        ensures { IfOk result (λ line. (t : Naming) (w : World) → hoisted_or line (with_functions t functions.new w) ≡ statements.hoist path.now (block_named t file.now) (with_functions t functions.old w)) };
}
