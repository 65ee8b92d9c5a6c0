// A folder in memory that fails at the calls of a list.
ghost use Rattle.std.specs.Prelude.{◌≡◌, ◌↔◌, Bool, IsTrue, Some, IfOk, IfSome, OnOk, OnErr, IsErrOf, is_ok, filter, map, nat_eq, string_bytes};
ghost use Rattle.std.specs.List.{starts_with};
ghost use Rattle.std.specs.String.{string_cmp};
ghost use Rattle.std.specs.Option.{option_copied};
ghost use Rattle.std.specs.BTreeMap.{keys, IsOrdered};
ghost use Rattle.std.specs.FinMap as fin;
ghost use Rattle.less_outside.specs.Files.{paths_below};
ghost use Rattle.less_outside.specs.Folder.{IsFound, HasFolderCause};
ghost use Rattle.less_outside.specs.FolderMem.{FolderState, files_of, last_files, new_folder, is_failing, called, after_read, after_write};

use crate::{Folder, FolderFault, Found};
use std::alloc::{AllocError, Global};
use std::collections::BTreeMap;
use std::marker::Model;

/// Contracts see it as its files, the calls that fail, and its counts of calls and faults.
#[derive(Drop)]
pub struct FolderMem {
    files: BTreeMap<String, Vec<u8>>,
    failing: Vec<u64>,
    calls: u64,
    read_faults: u64,
    write_faults: u64,
}

impl Model for FolderMem {
    ghost use Rattle.less_outside.specs.FolderMem.{FolderState, folder_code, files_of};

    ghost Value = { FolderState };

    ghost coded = { folder_code };

    ghost view = { λ f. record { files = files_of f.files.entries; failing = f.failing.items; calls = f.calls; read_faults = f.read_faults; write_faults = f.write_faults } };
}

impl FolderMem {
    /// A folder of these files; of a path that stands twice the last counts. It fails at the calls that `failing` lists,
    /// counted from 0 over all its calls.
    pub fn new(
        alloc: Global,
        files: Vec<(String, Vec<u8>)>,
        failing: Vec<u64>,
    ) -> Result<Self, AllocError>
        ensures { IfOk result (λ folder. folder ≡ new_folder (last_files files.items) failing.items) }
    {
        Ok(FolderMem {
            files: by_path(alloc, files)?,
            failing,
            calls: 0,
            read_faults: 0,
            write_faults: 0,
        })
    }

    /// The bytes of a file.
    pub fn file(&self, path: &str) -> Option<&[u8]>
        ensures { option_copied result ≡ fin.get self.now.files path.now }
    {
        match self.files.get(path) {
            Some(bytes) => Some(bytes.as_slice()),
            None => None,
        }
    }

    /// How many files there are.
    pub fn len(&self) -> usize
        ensures { result ≡ fin.len self.now.files }
    {
        self.files.len()
    }

    // Counts a call, and tells whether it fails.
    fn begin(&mut self) -> bool
        ensures fails { result ≡ is_failing self.old }
        ensures after { self.new ≡ called self.old }
    {
        let fails = self.failing.contains(&self.calls);
        self.calls = self.calls.saturating_add(1);
        fails
    }
}

fn by_path(
    alloc: Global,
    files: Vec<(String, Vec<u8>)>,
) -> Result<BTreeMap<String, Vec<u8>>, AllocError>
    ensures { IfOk result (λ map. files_of map.entries ≡ last_files files.items) }
{
    let mut map = BTreeMap::new(alloc);
    for (path, bytes) in files {
        map.insert(path, bytes)?;
    }
    Ok(map)
}

fn paths_with_front(
    alloc: Global,
    files: &BTreeMap<String, Vec<u8>>,
    front: &[u8],
) -> Result<Vec<String>, AllocError>
    ensures paths { IfOk result (λ paths. map string_bytes paths.items ≡ filter (λ path. starts_with nat_eq path front.now) (map string_bytes (keys files.now))) }
    ensures ordered { OnOk result (IsOrdered string_cmp files.now) }
{
    let mut paths = Vec::new(alloc);
    for path in files.keys() {
        if path.as_bytes().starts_with(front) {
            paths.push(path.clone()?)?;
        }
    }
    Ok(paths)
}

impl Folder for FolderMem {
    ghost told = { λ f. Some f.files };

    ghost read_count = { λ f. f.read_faults };

    ghost write_count = { λ f. f.write_faults };

    fn list(&mut self, alloc: Global, below: &str) -> Result<Vec<String>, FolderFault>
        ensures fails { IsErrOf result FolderFault.Failed ↔ IsTrue (is_failing self.old) }
        ensures paths { IfOk result (λ paths. map string_bytes paths.items ≡ paths_below below.now self.old.files) }
        ensures after { self.new ≡ after_read self.old }
        ensures cause { HasFolderCause self.old.read_faults self.new.read_faults result }
    {
        if self.begin() {
            self.read_faults = self.read_faults.saturating_add(1);
            return Err(FolderFault::Failed);
        }
        let mut front = String::from_str(alloc, below)?;
        front.push('/')?;
        let paths = paths_with_front(alloc, &self.files, front.as_bytes())?;
        Ok(paths)
    }

    fn read(&mut self, alloc: Global, path: &str, max: usize) -> Result<Found, FolderFault>
        ensures fails { IsErrOf result FolderFault.Failed ↔ IsTrue (is_failing self.old) }
        ensures found { IfOk result (IsFound (fin.get self.old.files path.now) max) }
        ensures after { self.new ≡ after_read self.old }
        ensures cause { HasFolderCause self.old.read_faults self.new.read_faults result }
    {
        if self.begin() {
            self.read_faults = self.read_faults.saturating_add(1);
            return Err(FolderFault::Failed);
        }
        match self.file(path) {
            None => Ok(Found::Absent),
            Some(bytes) if bytes.len() > max => Ok(Found::TooLong),
            Some(bytes) => Ok(Found::Bytes(Vec::from_slice(alloc, bytes)?)),
        }
    }

    /// A write that fails or finds no memory leaves the file as before.
    fn write(&mut self, alloc: Global, path: &str, bytes: &[u8]) -> Result<(), FolderFault>
        ensures fails { IsErrOf result FolderFault.Failed ↔ IsTrue (is_failing self.old) }
        ensures after { self.new ≡ after_write self.old (fin.insert self.old.files path.now bytes.now) (is_ok result) }
        ensures cause { HasFolderCause self.old.write_faults self.new.write_faults result }
    {
        if self.begin() {
            self.write_faults = self.write_faults.saturating_add(1);
            return Err(FolderFault::Failed);
        }
        let path = String::from_str(alloc, path)?;
        let bytes = Vec::from_slice(alloc, bytes)?;
        self.files.insert(path, bytes)?;
        Ok(())
    }

    /// A remove that fails leaves the file as before. It takes no memory.
    fn remove(&mut self, _alloc: Global, path: &str) -> Result<(), FolderFault>
        ensures fails { IsErrOf result FolderFault.Failed ↔ IsTrue (is_failing self.old) }
        ensures after { self.new ≡ after_write self.old (fin.remove self.old.files path.now) (is_ok result) }
        ensures cause { HasFolderCause self.old.write_faults self.new.write_faults result }
    {
        if self.begin() {
            self.write_faults = self.write_faults.saturating_add(1);
            return Err(FolderFault::Failed);
        }
        self.files.remove(path);
        Ok(())
    }

    fn read_faults(&self) -> u64 {
        self.read_faults
    }

    fn write_faults(&self) -> u64 {
        self.write_faults
    }
}
