//! What holds of every application and every copy, for which no code runs.

ghost use Rattle.std.specs.Prelude.{◌≡◌, ℕ, List, String as AnyString, Vec as AnyVec};
ghost use Rattle.std.specs.declared.alloc.Global.{Global};
ghost use Rattle.app_load.specs.Judged.{Verdict, Judged};
ghost use Rattle.app_load.specs.Applications.{Outcome, IsOutcomeOf};

use app_load::judge::Setting;

/// A PHP text with a path has at most one verdict.
#[tactic(auto, using(crate::proofs::Verdicts::one_verdict))]
pub fn one_verdict(setting: Setting)
    ensures { (path text : List ℕ) (v w : Verdict) → Judged setting path text v → Judged setting path text w → v ≡ w }
{}

/// Files that are given have at most one outcome: so an application that is refused is not accepted, and has no other first fault.
pub fn one_outcome(setting: Setting)
    ensures { (given : List (AnyString Global × AnyVec ℕ Global)) (o p : Outcome) → IsOutcomeOf setting given o → IsOutcomeOf setting given p → o ≡ p }
{}
