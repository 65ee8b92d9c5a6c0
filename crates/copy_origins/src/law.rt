//! What holds of every accepted copy, for which no code runs.
ghost use Rattle.std.specs.Prelude.{ℕ, List, String, Vec};
ghost use Rattle.std.specs.declared.alloc.Global.{Global};
ghost use Rattle.app_load.specs.Applications.{IsProgram};
ghost use Rattle.app_load.specs.Files.{File};
ghost use Rattle.copy_laws.specs.Exact.{FilesExact};
ghost use Rattle.copy_laws.specs.Originals.{AreOriginal, MayBeApplication, kept_in};
ghost use Rattle.copy_laws.specs.Restored.{restored_files};

/// In an accepted copy each placeholder is exact: the whole body of the function that it names, or the whole file.
pub fn placeholders_are_exact()
    ensures { (given : List (String Global × Vec ℕ Global)) (gs : List File) → IsProgram given gs → FilesExact gs }
{}

/// Every accepted copy is the copy of trees that an application may have, for the entries at which it has no placeholder.
pub fn every_accepted_copy_has_an_original()
    ensures original { (given : List (String Global × Vec ℕ Global)) (gs : List File) →
        IsProgram given gs → AreOriginal (kept_in gs) (restored_files gs) gs }
    ensures application { (given : List (String Global × Vec ℕ Global)) (gs : List File) → IsProgram given gs → MayBeApplication (restored_files gs) }
{}
