// A folder of the system's files. It tells nothing: what stands on a disk is no fact of a proof.
ghost use Rattle.std.specs.Prelude.{◌≡◌, None, IfOk, is_err};
ghost use Rattle.less_outside.specs.Folder.{IsWithin, HasFolderCause};
ghost use Rattle.less_outside.specs.Told.{next_on};

use crate::{Folder, FolderFault, Found};
use std::alloc::{AllocError, Global};
use std::io::{ErrorKind, Read};
use std::rt::Files;
use std::{fs, io};

/// The files below one folder of the system. Every call that fails raises its count, want of memory included.
#[derive(Drop)]
pub struct FolderReal<R: Files + AllocGlobal + Clone + Drop> {
    rt: R,
    root: String,
    read_faults: u64,
    write_faults: u64,
}

impl<R: Files + AllocGlobal + Clone + Drop> FolderReal<R> {
    ghost use Rattle.less_outside.specs.FolderReal.{IsNewFolderReal};

    /// The files below `root`, which is a path of the system. Nothing is opened yet.
    pub fn new(rt: R, root: String) -> Self
        ensures { IsNewFolderReal result rt root }
    {
        FolderReal {
            rt,
            root,
            read_faults: 0,
            write_faults: 0,
        }
    }
}

impl<R: Files + AllocGlobal + Clone + Drop> Folder for FolderReal<R> {
    ghost use Rattle.less_outside.specs.FolderReal.{read_faults_of, write_faults_of};

    ghost told = { λ _. None };

    ghost read_count = { λ f. f.read_faults };

    ghost write_count = { λ f. f.write_faults };

    fn list(&mut self, alloc: Global, below: &str) -> Result<Vec<String>, FolderFault>
        ensures counted { read_faults_of self.new ≡ next_on (is_err result) (read_faults_of self.old) }
        ensures writes { write_faults_of self.new ≡ write_faults_of self.old }
        ensures cause { HasFolderCause (read_faults_of self.old) (read_faults_of self.new) result }
    {
        match files_below(&self.rt, alloc, self.root.as_str(), below) {
            Ok(paths) => Ok(paths),
            Err(error) => {
                self.read_faults = self.read_faults.saturating_add(1);
                Err(fault_of(&error))
            }
        }
    }

    fn read(&mut self, alloc: Global, path: &str, max: usize) -> Result<Found, FolderFault>
        ensures within { IfOk result (IsWithin max) }
        ensures counted { read_faults_of self.new ≡ next_on (is_err result) (read_faults_of self.old) }
        ensures writes { write_faults_of self.new ≡ write_faults_of self.old }
        ensures cause { HasFolderCause (read_faults_of self.old) (read_faults_of self.new) result }
    {
        match read_file(&self.rt, alloc, self.root.as_str(), path, max) {
            Ok(found) => Ok(found),
            Err(error) => {
                self.read_faults = self.read_faults.saturating_add(1);
                Err(fault_of(&error))
            }
        }
    }

    fn write(&mut self, alloc: Global, path: &str, bytes: &[u8]) -> Result<(), FolderFault>
        ensures counted { write_faults_of self.new ≡ next_on (is_err result) (write_faults_of self.old) }
        ensures reads { read_faults_of self.new ≡ read_faults_of self.old }
        ensures cause { HasFolderCause (write_faults_of self.old) (write_faults_of self.new) result }
    {
        match write_file(&self.rt, alloc, self.root.as_str(), path, bytes) {
            Ok(()) => Ok(()),
            Err(error) => {
                self.write_faults = self.write_faults.saturating_add(1);
                Err(fault_of(&error))
            }
        }
    }

    fn remove(&mut self, alloc: Global, path: &str) -> Result<(), FolderFault>
        ensures counted { write_faults_of self.new ≡ next_on (is_err result) (write_faults_of self.old) }
        ensures reads { read_faults_of self.new ≡ read_faults_of self.old }
        ensures cause { HasFolderCause (write_faults_of self.old) (write_faults_of self.new) result }
    {
        match remove_file(&self.rt, alloc, self.root.as_str(), path) {
            Ok(()) => Ok(()),
            Err(error) => {
                self.write_faults = self.write_faults.saturating_add(1);
                Err(fault_of(&error))
            }
        }
    }

    fn read_faults(&self) -> u64 {
        self.read_faults
    }

    fn write_faults(&self) -> u64 {
        self.write_faults
    }
}

fn fault_of(error: &io::Error) -> FolderFault {
    if error.kind() == ErrorKind::OutOfMemory {
        FolderFault::Memory
    } else {
        FolderFault::Failed
    }
}

// No file has the path: nothing stands there, or a file stands where a folder would have to.
fn is_absence(error: &io::Error) -> bool {
    error.kind() == ErrorKind::NotFound || error.kind() == ErrorKind::NotADirectory
}

fn joined(alloc: Global, folder: &str, name: &str) -> Result<String, AllocError> {
    let mut path = String::from_str(alloc, folder)?;
    path.push('/')?;
    path.push_str(name)?;
    Ok(path)
}

// Goes down from a folder. Links are passed over, so it goes in no circle.
fn files_below<R: Files + AllocGlobal + Clone + Drop>(
    rt: &R,
    alloc: Global,
    root: &str,
    below: &str,
) -> io::Result<Vec<String>> {
    let mut paths = Vec::new(alloc);
    let mut folders = Vec::new(alloc);
    folders.push(String::from_str(alloc, below)?)?;
    for _ in 0..u64::MAX {
        match folders.pop() {
            Some(folder) => add_files(rt, alloc, root, folder.as_str(), &mut folders, &mut paths)?,
            None => {
                paths.sort()?;
                return Ok(paths);
            }
        }
    }
    Err(io::Error::from(ErrorKind::Other))
}

fn add_files<R: Files + AllocGlobal + Clone + Drop>(
    rt: &R,
    alloc: Global,
    root: &str,
    folder: &str,
    folders: &mut Vec<String>,
    paths: &mut Vec<String>,
) -> io::Result<()> {
    let place = joined(alloc, root, folder)?;
    let entries = match fs::read_dir(rt, place.as_str()) {
        Ok(entries) => entries,
        Err(error) if is_absence(&error) => return Ok(()),
        Err(error) => return Err(error),
    };
    for entry in entries {
        let entry = entry?;
        let kind = entry.file_type()?;
        let path = joined(alloc, folder, entry.file_name())?;
        if kind.is_dir() {
            folders.push(path)?;
        } else if kind.is_file() {
            paths.push(path)?;
        }
    }
    Ok(())
}

fn read_file<R: Files + AllocGlobal + Clone + Drop>(
    rt: &R,
    alloc: Global,
    root: &str,
    path: &str,
    max: usize,
) -> io::Result<Found>
    ensures { IfOk result (IsWithin max) }
{
    let place = joined(alloc, root, path)?;
    let file = match fs::open(rt, place.as_str()) {
        Ok(file) => file,
        Err(error) if is_absence(&error) => return Ok(Found::Absent),
        Err(error) => return Err(error),
    };
    if fs::OpenFile::metadata(&file)?.is_dir() {
        return Ok(Found::Absent);
    }
    // One byte more than may be given shows that the file is too long.
    let mut bytes = Vec::new(alloc);
    file.take((max as u64).saturating_add(1))
        .read_to_end(&mut bytes)?;
    if bytes.len() > max {
        return Ok(Found::TooLong);
    }
    Ok(Found::Bytes(bytes))
}

fn write_file<R: Files + AllocGlobal + Clone + Drop>(
    rt: &R,
    alloc: Global,
    root: &str,
    path: &str,
    bytes: &[u8],
) -> io::Result<()> {
    let place = joined(alloc, root, path)?;
    if let Some((folder, _)) = place.as_str().rsplit_once('/') {
        fs::create_dir_all(rt, folder)?;
    }
    fs::write(rt, place.as_str(), bytes)
}

fn remove_file<R: Files + AllocGlobal + Clone + Drop>(
    rt: &R,
    alloc: Global,
    root: &str,
    path: &str,
) -> io::Result<()> {
    let place = joined(alloc, root, path)?;
    match fs::remove_file(rt, place.as_str()) {
        Ok(()) => Ok(()),
        Err(error) if is_absence(&error) => Ok(()),
        Err(error) => Err(error),
    }
}
