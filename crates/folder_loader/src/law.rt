//! What holds of every folder, for which no code runs.

ghost use Rattle.std.specs.Prelude.{◌≡◌, ℕ, List};
ghost use Rattle.less_outside.specs.Files.{Files};
ghost use Rattle.app_load.specs.Applications.{Outcome};
ghost use Rattle.app_reading.specs.Texts.{IsOutcomeIn};

use app_load::judge::Setting;

/// What stands below a folder's path has at most one outcome: so an application that is refused is not accepted, and has no other
/// first fault; likewise a copy.
pub fn one_outcome(setting: Setting)
    ensures { (below : List ℕ) (files : Files) (o p : Outcome) → IsOutcomeIn setting below files o → IsOutcomeIn setting below files p → o ≡ p }
{}
