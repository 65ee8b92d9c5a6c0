// The order of files.
ghost use Rattle.std.specs.Prelude.{◌≡◌, ℕ, List, map, String as AnyString, Vec as AnyVec};
ghost use Rattle.std.specs.declared.alloc.Global.{Global};
ghost use Rattle.app_load.specs.Applications.{AreInOrder, IsOnce, Text, text_of};

/// Puts files into byte order of their paths, of which none stands twice.
pub fn put_in_order(files: &mut Vec<(String, Vec<u8>)>)
    requires { IsOnce files.old.items }
    ensures { AreInOrder files.old.items (map text_of files.new.items) }
{
    files.sort_unstable();
}

/// Files have one order.
pub fn one_order()
    ensures { (given : List (AnyString Global × AnyVec ℕ Global)) (texts other : List Text) → AreInOrder given texts → AreInOrder given other → texts ≡ other }
{}
