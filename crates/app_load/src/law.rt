//! What holds of every application and every copy of it, for which no code runs.
ghost use Rattle.std.specs.Prelude.{◌≡◌, List};
ghost use Rattle.app_load.specs.Files.{File};
ghost use Rattle.app_load.specs.Kept.{Keeps};
ghost use Rattle.app_load.specs.Parts.{parts, part_at};
ghost use Rattle.app_load.specs.Copies.{IsCopyOf};
ghost use Rattle.app_load.specs.CopyParts.{AreCopyParts, StandOnce, paths_of};

/// The parts of a copy are those of its original where they are kept, and gone where they are not; of an application in
/// which no entry stands twice.
#[tactic(auto, using(crate::proofs::CopyParts::copy_parts, crate::proofs::CopyParts::same_paths))]
pub fn a_copy_has_the_kept_parts()
    ensures parts { (keeps : Keeps) (fs gs : List File) → StandOnce (parts fs) → IsCopyOf keeps fs gs → AreCopyParts keeps (part_at (parts fs)) (part_at (parts gs)) }
    ensures paths { (keeps : Keeps) (fs gs : List File) → IsCopyOf keeps fs gs → paths_of (parts gs) ≡ paths_of (parts fs) }
{}
