// A keeper in memory that fails at the calls of a list.
ghost use Rattle.std.specs.Prelude.{◌≡◌, ◌↔◌, IsTrue, Some, IfOk, OnOk, OnErr, IsErrOf, is_ok};
ghost use Rattle.std.specs.List.{All};
ghost use Rattle.tables_keeper.specs.Tables.{tables_of, IsChange, all_redone};
ghost use Rattle.tables_journal.specs.Keeper.{HasKeeperCause, KeeperState, new_keeper, is_failing, called, after_load, after_commit};

use crate::{Keeper, KeeperFault};
use std::alloc::Global;
use std::marker::Model;
use tables_keeper::{Change, Tables};

/// Contracts see it as its tables, the calls that fail, and its counts of calls and faults.
#[derive(Debug, Drop)]
pub struct KeeperMem {
    tables: Tables,
    failing: Vec<u64>,
    calls: u64,
    load_faults: u64,
    commit_faults: u64,
}

impl Model for KeeperMem {
    ghost use Rattle.tables_keeper.specs.Tables.{tables_of};
    ghost use Rattle.tables_journal.specs.Keeper.{KeeperState};

    ghost Value = { KeeperState };

    ghost view = { λ k. record { tables = tables_of k.tables; failing = k.failing.items; calls = k.calls; load_faults = k.load_faults; commit_faults = k.commit_faults } };
}

impl KeeperMem {
    /// A keeper of these tables. It fails at the calls that `failing` lists, counted from 0 over all its calls.
    pub fn new(tables: Tables, failing: Vec<u64>) -> Self
        ensures { result ≡ new_keeper (tables_of tables) failing.items }
    {
        KeeperMem {
            tables,
            failing,
            calls: 0,
            load_faults: 0,
            commit_faults: 0,
        }
    }

    /// The tables that are kept.
    pub fn tables(&self) -> &Tables
        ensures { tables_of result.now ≡ self.now.tables }
    {
        &self.tables
    }

    // Counts a call, and tells whether it fails.
    fn begin(&mut self) -> bool
        ensures fails { result ≡ is_failing self.old }
        ensures after { self.new ≡ called self.old }
    {
        let fails = self.failing.contains(&self.calls);
        self.calls = self.calls.saturating_add(1);
        fails
    }
}

impl Keeper for KeeperMem {
    ghost told = { λ k. Some k.tables };

    ghost load_count = { λ k. k.load_faults };

    ghost commit_count = { λ k. k.commit_faults };

    fn load(&mut self, alloc: Global) -> Result<Tables, KeeperFault>
        ensures fails { IsErrOf result KeeperFault.Failed ↔ IsTrue (is_failing self.old) }
        ensures tables { IfOk result (λ tables. tables_of tables ≡ self.old.tables) }
        ensures after { self.new ≡ after_load self.old }
        ensures cause { HasKeeperCause self.old.load_faults self.new.load_faults result }
    {
        if self.begin() {
            self.load_faults = self.load_faults.saturating_add(1);
            return Err(KeeperFault::Failed);
        }
        let tables = self.tables.copy(alloc)?;
        Ok(tables)
    }

    fn commit(&mut self, alloc: Global, changes: &[Change]) -> Result<(), KeeperFault>
        requires { All IsChange changes.now }
        ensures fails { IsErrOf result KeeperFault.Failed ↔ IsTrue (is_failing self.old) }
        ensures after { self.new ≡ after_commit self.old (all_redone changes.now self.old.tables) (is_ok result) }
        ensures cause { HasKeeperCause self.old.commit_faults self.new.commit_faults result }
    {
        if self.begin() {
            self.commit_faults = self.commit_faults.saturating_add(1);
            return Err(KeeperFault::Failed);
        }
        self.tables.redo_all(alloc, changes)?;
        Ok(())
    }

    fn load_faults(&self) -> u64 {
        self.load_faults
    }

    fn commit_faults(&self) -> u64 {
        self.commit_faults
    }
}
