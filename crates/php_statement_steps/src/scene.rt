// Where the run stands.

ghost use Rattle.std.specs.Prelude.{◌≡◌};
ghost use Rattle.php_world.specs.Naming.{Naming};
ghost use Rattle.php_world.specs.declared.store.Store.{Store};
ghost use Rattle.php_meaning.specs.World.{World, at_line, path_of};
ghost use Rattle.php_rest.specs.Views.{entry_of};
ghost use Rattle.php_statement_steps.specs.Standing.{stands};

use php_rest::{Owner, Scene};
use sqlite_items::Items;

// The file of what runs.
fn file_of<'a>(owner: Owner<'a>) -> &'a Items<u8>
    ensures { result.now ≡ path_of (entry_of owner.entry) }
{
    match owner {
        Owner::File(path) => path,
        Owner::Function(function) => function.path,
    }
}

/// The run stands at a line of the code that runs.
pub fn stand_at(scene: &mut Scene<'_>, line: u32)
    ensures { (t : Naming) (s : Store) (w : World) → stands t s scene.new w ≡ at_line line (stands t s scene.old w) }
{
    scene.file = file_of(scene.owner);
    scene.line = line;
}
