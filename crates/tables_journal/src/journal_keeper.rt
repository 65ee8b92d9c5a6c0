// A keeper over one file of the system: a journal to which each commit is appended. It tells nothing: what stands on a
// disk is no fact of a proof.
ghost use Rattle.std.specs.Prelude.{◌≡◌, None, IfOk, is_err};
ghost use Rattle.std.specs.List.{All};
ghost use Rattle.less_outside.specs.Told.{next_on};
ghost use Rattle.tables_keeper.specs.Tables.{IsChange};
ghost use Rattle.tables_journal.specs.Keeper.{HasKeeperCause};

use crate::journal::{JournalFault, Loaded, commit_bytes, read_journal};
use crate::{Keeper, KeeperFault};
use std::alloc::{AllocError, Global};
use std::fs::OpenOptions;
use std::io::{ErrorKind, Read, Write};
use std::rt::Files;
use std::{fs, io};
use tables_keeper::{Change, Tables};

/// The journal at one path. An absent file is that of no commit. After an append that failed, each later commit fails
/// until the next load. Every call that fails raises its count, want of memory included.
#[derive(Drop)]
pub struct JournalKeeper<R: Files + AllocGlobal + Clone + Drop> {
    rt: R,
    path: String,
    is_broken: bool,
    load_faults: u64,
    commit_faults: u64,
}

impl<R: Files + AllocGlobal + Clone + Drop> JournalKeeper<R> {
    ghost use Rattle.tables_journal.specs.JournalKeeper.{IsNewJournalKeeper};

    /// The journal at a path of the system. Nothing is opened yet.
    pub fn new(rt: R, alloc: Global, path: &str) -> Result<Self, AllocError>
        ensures { IfOk result (λ keeper. IsNewJournalKeeper keeper rt path.now) }
    {
        let path = String::from_str(alloc, path)?;
        Ok(JournalKeeper {
            rt,
            path,
            is_broken: false,
            load_faults: 0,
            commit_faults: 0,
        })
    }
}

impl<R: Files + AllocGlobal + Clone + Drop> Keeper for JournalKeeper<R> {
    ghost use Rattle.tables_journal.specs.JournalKeeper.{load_faults_of, commit_faults_of};

    ghost told = { λ _. None };

    ghost load_count = { λ k. k.load_faults };

    ghost commit_count = { λ k. k.commit_faults };

    /// Drops a last commit that is not whole, and writes the file without it.
    fn load(&mut self, alloc: Global) -> Result<Tables, KeeperFault>
        ensures counted { load_faults_of self.new ≡ next_on (is_err result) (load_faults_of self.old) }
        ensures commits { commit_faults_of self.new ≡ commit_faults_of self.old }
        ensures cause { HasKeeperCause (load_faults_of self.old) (load_faults_of self.new) result }
    {
        match load_file(&self.rt, alloc, self.path.as_str()) {
            Ok(tables) => {
                self.is_broken = false;
                Ok(tables)
            }
            Err(fault) => {
                self.load_faults = self.load_faults.saturating_add(1);
                Err(fault)
            }
        }
    }

    /// Appends the changes as one piece.
    fn commit(&mut self, alloc: Global, changes: &[Change]) -> Result<(), KeeperFault>
        requires { All IsChange changes.now }
        ensures counted { commit_faults_of self.new ≡ next_on (is_err result) (commit_faults_of self.old) }
        ensures loads { load_faults_of self.new ≡ load_faults_of self.old }
        ensures cause { HasKeeperCause (commit_faults_of self.old) (commit_faults_of self.new) result }
    {
        let kept = self.append(alloc, changes);
        if kept.is_err() {
            self.commit_faults = self.commit_faults.saturating_add(1);
        }
        kept
    }

    fn load_faults(&self) -> u64 {
        self.load_faults
    }

    fn commit_faults(&self) -> u64 {
        self.commit_faults
    }
}

impl<R: Files + AllocGlobal + Clone + Drop> JournalKeeper<R> {
    ghost use Rattle.tables_journal.specs.JournalKeeper.{HasFaultsOf};

    fn append(&mut self, alloc: Global, changes: &[Change]) -> Result<(), KeeperFault>
        requires { All IsChange changes.now }
        ensures { HasFaultsOf self.old self.new }
    {
        if self.is_broken {
            return Err(KeeperFault::Failed);
        }
        let bytes = commit_bytes(alloc, changes)?;
        if append_bytes(&self.rt, self.path.as_str(), bytes.as_slice()).is_err() {
            self.is_broken = true;
            return Err(KeeperFault::Failed);
        }
        Ok(())
    }
}

/// The bytes of the file, or none where it is absent.
fn read_bytes<R: Files + AllocGlobal + Clone + Drop>(
    rt: &R,
    alloc: Global,
    path: &str,
) -> io::Result<Vec<u8>> {
    let mut bytes = Vec::new(alloc);
    match fs::open(rt, path) {
        Ok(mut file) => {
            file.read_to_end(&mut bytes)?;
            Ok(bytes)
        }
        Err(error) if error.kind() == ErrorKind::NotFound => Ok(bytes),
        Err(error) => Err(error),
    }
}

fn append_bytes<R: Files + AllocGlobal + Clone + Drop>(
    rt: &R,
    path: &str,
    bytes: &[u8],
) -> io::Result<()> {
    let mut file = OpenOptions::new().append(true).create(true).open(rt, path)?;
    file.write_all(bytes)?;
    file.flush()
}

/// Cuts the file to its first bytes.
fn cut_file<R: Files + AllocGlobal + Clone + Drop>(
    rt: &R,
    path: &str,
    length: usize,
) -> io::Result<()> {
    let file = OpenOptions::new().write(true).open(rt, path)?;
    fs::OpenFile::set_len(&file, length as u64)
}

fn load_file<R: Files + AllocGlobal + Clone + Drop>(
    rt: &R,
    alloc: Global,
    path: &str,
) -> Result<Tables, KeeperFault> {
    let bytes = match read_bytes(rt, alloc, path) {
        Ok(bytes) => bytes,
        Err(error) => return Err(fault_of(&error)),
    };
    let Loaded { tables, whole } = match read_journal(alloc, bytes.as_slice()) {
        Ok(loaded) => loaded,
        Err(JournalFault::BadForm) => return Err(KeeperFault::Failed),
        Err(JournalFault::Memory) => return Err(KeeperFault::Memory),
    };
    if whole < bytes.len() && cut_file(rt, path, whole).is_err() {
        return Err(KeeperFault::Failed);
    }
    Ok(tables)
}

fn fault_of(error: &io::Error) -> KeeperFault {
    if error.kind() == ErrorKind::OutOfMemory {
        KeeperFault::Memory
    } else {
        KeeperFault::Failed
    }
}
