// What keeps the application's tables. Its calls may fail, and it counts how often they did.
ghost use Rattle.std.specs.Prelude.{◌≡◌, ℕ, List, Option, OnOk, OnErr, IfOk, IfSome};
ghost use Rattle.std.specs.List.{All};
ghost use Rattle.less_outside.specs.Told.{Changes, Stays};
ghost use Rattle.tables_keeper.specs.TableData.{TableData};
ghost use Rattle.tables_keeper.specs.Tables.{tables_of, IsChange, all_redone};
ghost use Rattle.tables_journal.specs.Keeper.{HasKeeperCause};
ghost use Rattle.tables_journal.specs.declared.keeper.KeeperFault.TheVariants.{Memory};

use std::alloc::{AllocError, AllocFailed, Global};
use tables_keeper::{Change, Tables};

/// What a call of a keeper answers in place of its result. `Memory` may come at any time.
#[derive(Clone, Copy, Debug, PartialEq, Eq)]
pub enum KeeperFault {
    Failed,
    Memory,
}

impl From<AllocError> for KeeperFault {
    ghost from_gives = { λ _ fault. fault ≡ Memory };

    fn from(_: AllocError) -> Self {
        KeeperFault::Memory
    }
}

impl<T: Drop> From<AllocFailed<T>> for KeeperFault {
    ghost from_gives = { λ _ fault. fault ≡ Memory };

    fn from(_: AllocFailed<T>) -> Self {
        KeeperFault::Memory
    }
}

pub trait Keeper {
    /// The tables, or none where the keeper does not tell.
    ghost told: { Self → Option (List TableData) };

    /// How often a load has failed. It stands still at the end of its type.
    ghost load_count: { Self → ℕ };

    /// How often a commit has failed. It stands still at the end of its type.
    ghost commit_count: { Self → ℕ };

    /// The tables.
    fn load(&mut self, alloc: Global) -> Result<Tables, KeeperFault>
        ensures tables { IfOk result (λ tables. IfSome (told self.old) (λ kept. tables_of tables ≡ kept)) }
        ensures kept { Stays (told self.old) (told self.new) }
        ensures cause { HasKeeperCause (load_count self.old) (load_count self.new) result }
        ensures commits { commit_count self.new ≡ commit_count self.old };

    /// Keeps changes. Where it fails or finds no memory, none of them is kept.
    fn commit(&mut self, alloc: Global, changes: &[Change]) -> Result<(), KeeperFault>
        requires { All IsChange changes.now }
        ensures kept { OnOk result (Changes (told self.old) (told self.new) (λ old new. new ≡ all_redone changes.now old)) }
        ensures none { OnErr result (Stays (told self.old) (told self.new)) }
        ensures cause { HasKeeperCause (commit_count self.old) (commit_count self.new) result }
        ensures loads { load_count self.new ≡ load_count self.old };

    /// The count of faults of loads.
    fn load_faults(&self) -> u64
        ensures { result ≡ load_count self.now };

    /// The count of faults of commits.
    fn commit_faults(&self) -> u64
        ensures { result ≡ commit_count self.now };
}
