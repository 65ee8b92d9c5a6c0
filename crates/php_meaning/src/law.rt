//! What holds of every program, for which no code runs.

ghost use Rattle.std.specs.Prelude.{◌≡◌, ℕ, List, Bool};
ghost use Rattle.app_load.specs.Copies.{IsCopyOf};
ghost use Rattle.app_load.specs.CopyParts.{StandOnce};
ghost use Rattle.app_load.specs.Entries.{Entry};
ghost use Rattle.app_load.specs.Files.{File};
ghost use Rattle.app_load.specs.Kept.{Keeps};
ghost use Rattle.app_load.specs.Parts.{parts};
ghost use Rattle.php_meaning.specs.Run.{Look};
ghost use Rattle.php_meaning.specs.Trace.{Input, trace, trace_by};
ghost use Rattle.php_meaning.specs.Cut.{cut};
ghost use Rattle.php_meaning.specs.Copies.{AreCopyParts, IsWithin};

/// A copy for a kept set runs as its original does, event for event and at every budget, up to the original's first entry
/// that is not kept, and is removed there.
pub fn copies_run_alike()
    ensures { (keeps : Entry → Bool) (original copy : Look) (files : List (List ℕ)) (i : Input) (budget : ℕ) →
        AreCopyParts keeps original copy → trace_by copy files i budget ≡ cut keeps (trace_by original files i budget) }
{}

/// A run that was not cut at a kept set is not cut at a larger one.
pub fn larger_kept_sets()
    ensures { (keeps more : Entry → Bool) (look : Look) (files : List (List ℕ)) (i : Input) (budget : ℕ) → IsWithin keeps more →
        cut keeps (trace_by look files i budget) ≡ trace_by look files i budget → cut more (trace_by look files i budget) ≡ trace_by look files i budget }
{}

/// The run of a copy of an application in which no entry stands twice is the cut of the application's run at what was kept.
pub fn copies_of_applications_are_cut()
    ensures { (keeps : Keeps) (fs gs : List File) (i : Input) (budget : ℕ) → StandOnce (parts fs) → IsCopyOf keeps fs gs →
        trace (parts gs) i budget ≡ cut keeps (trace (parts fs) i budget) }
{}
