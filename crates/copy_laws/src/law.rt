//! What holds of copies and applications, for which no code runs.
ghost use Rattle.std.specs.Prelude.{◌≡◌, ℕ, List, String, Vec};
ghost use Rattle.std.specs.declared.alloc.Global.{Global};
ghost use Rattle.app_load.specs.declared.judge.Setting.{Setting};
ghost use Rattle.app_load.specs.Applications.{accepted, IsOutcomeOf, IsProgram};
ghost use Rattle.app_load.specs.CopyParts.{StandOnce};
ghost use Rattle.app_load.specs.Files.{File};
ghost use Rattle.app_load.specs.Parts.{parts};
ghost use Rattle.copy_laws.specs.Exact.{FilesExact};
ghost use Rattle.copy_laws.specs.Originals.{AreOriginal, MayBeApplication, kept_in};
ghost use Rattle.copy_laws.specs.Restored.{restored_files};

/// Files whose placeholders are exact, and in which no entry stands twice, are the copy of files without placeholders, for the
/// entries at which they have none.
#[tactic(auto, using(crate::proofs::Originals::originals))]
pub fn a_copy_has_an_original()
    ensures { (gs : List File) → FilesExact gs → StandOnce (parts gs) → AreOriginal (kept_in gs) (restored_files gs) gs }
{}

/// No entry of an accepted application or copy stands twice.
pub fn entries_stand_once()
    ensures { (setting : Setting) (given : List (String Global × Vec ℕ Global)) (fs : List File) →
        IsOutcomeOf setting given (accepted fs) → StandOnce (parts fs) }
{}

/// An accepted copy is the copy of trees that an application may have, where its placeholders are exact.
pub fn an_accepted_copy_has_an_original()
    ensures original { (given : List (String Global × Vec ℕ Global)) (gs : List File) →
        IsProgram given gs → FilesExact gs → AreOriginal (kept_in gs) (restored_files gs) gs }
    ensures application { (given : List (String Global × Vec ℕ Global)) (gs : List File) → IsProgram given gs → MayBeApplication (restored_files gs) }
{}
