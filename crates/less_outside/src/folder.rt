// A folder of files. Its calls may fail, and it counts how often they did.
ghost use Rattle.std.specs.Prelude.{◌≡◌, ℕ, Option, OnOk, OnErr, IfOk, IfSome, map, string_bytes};
ghost use Rattle.std.specs.FinMap as fin;
ghost use Rattle.less_outside.specs.Files.{Files, paths_below, IsPartlyWritten, IsPartlyRemoved};
ghost use Rattle.less_outside.specs.Folder.{IsFound, IsWithin, HasFolderCause};
ghost use Rattle.less_outside.specs.Told.{Changes, Stays};

use crate::FolderFault;
use std::alloc::Global;

/// What a read finds at a path.
#[derive(Debug, Drop)]
pub enum Found {
    Absent,
    /// The file has more bytes than were asked for.
    TooLong,
    Bytes(Vec<u8>),
}

pub trait Folder {
    /// The files, or none where the folder does not tell.
    ghost told: { Self → Option Files };

    /// How often a list or a read has failed. It stands still at the end of its type.
    ghost read_count: { Self → ℕ };

    /// How often a write or a remove has failed. It stands still at the end of its type.
    ghost write_count: { Self → ℕ };

    /// The paths of the files below a folder, each whole, in byte order. A folder that does not tell may give a path twice.
    fn list(&mut self, alloc: Global, below: &str) -> Result<Vec<String>, FolderFault>
        ensures paths { IfOk result (λ paths. IfSome (told self.old) (λ files. map string_bytes paths.items ≡ paths_below below.now files)) }
        ensures kept { Stays (told self.old) (told self.new) }
        ensures cause { HasFolderCause (read_count self.old) (read_count self.new) result }
        ensures writes { write_count self.new ≡ write_count self.old };

    /// The bytes of a file, where it has at most `max` bytes.
    fn read(&mut self, alloc: Global, path: &str, max: usize) -> Result<Found, FolderFault>
        ensures found { IfOk result (λ found. IfSome (told self.old) (λ files. IsFound (fin.get files path.now) max found)) }
        ensures within { IfOk result (IsWithin max) }
        ensures kept { Stays (told self.old) (told self.new) }
        ensures cause { HasFolderCause (read_count self.old) (read_count self.new) result }
        ensures writes { write_count self.new ≡ write_count self.old };

    /// Sets the bytes of a file. Where it fails or finds no memory, the file is as before or holds a front part of the bytes.
    fn write(&mut self, alloc: Global, path: &str, bytes: &[u8]) -> Result<(), FolderFault>
        ensures written { OnOk result (Changes (told self.old) (told self.new) (λ old new. new ≡ fin.insert old path.now bytes.now)) }
        ensures part { OnErr result (Changes (told self.old) (told self.new) (IsPartlyWritten path.now bytes.now)) }
        ensures cause { HasFolderCause (write_count self.old) (write_count self.new) result }
        ensures reads { read_count self.new ≡ read_count self.old };

    /// Takes a file away. That it was absent before is no fault. Where it fails or finds no memory, the file is as before or absent.
    fn remove(&mut self, alloc: Global, path: &str) -> Result<(), FolderFault>
        ensures removed { OnOk result (Changes (told self.old) (told self.new) (λ old new. new ≡ fin.remove old path.now)) }
        ensures part { OnErr result (Changes (told self.old) (told self.new) (IsPartlyRemoved path.now)) }
        ensures cause { HasFolderCause (write_count self.old) (write_count self.new) result }
        ensures reads { read_count self.new ≡ read_count self.old };

    /// The count of faults of lists and reads.
    fn read_faults(&self) -> u64
        ensures { result ≡ read_count self.now };

    /// The count of faults of writes and removes.
    fn write_faults(&self) -> u64
        ensures { result ≡ write_count self.now };
}
