// The texts of an application, read from a folder.
ghost use Rattle.std.specs.Prelude.{◌≡◌, ◌≤◌, ◌++◌, ◌∷◌, [], ℕ, IsErrOf, List, Option, Some, length, map, IfOk, IfErr, IfSome, OnOk, string_bytes};
ghost use Rattle.std.specs.List.{list_all};
ghost use Rattle.std.specs.List.Sorted.{IsStrictlySortedBy};
ghost use Rattle.std.specs.Ordering.{nat_cmp};
ghost use Rattle.std.specs.Cmp.Lexicographic.{slice_cmp};
ghost use Rattle.std.specs.FinMap as fin;
ghost use Rattle.less_outside.specs.Told.{Stays};
ghost use Rattle.less_outside.specs.Folder.{IsFound, IsWithin, HasFolderCause};
ghost use Rattle.less_terms.specs.Paths.{is_path as is_path_text};
ghost use Rattle.app_load.specs.Applications.{Text, text_of, IsOnce};
ghost use Rattle.app_reading.specs.Parts.{whole};
ghost use Rattle.app_reading.specs.Texts.{AreTextsIn, IsLimitIn, HasReadCause};
ghost use Rattle.app_reading.specs.Reading.{HasRead, PassesTotal, Adds, paths_of, room, with_text, text_there, text_in, texts_in, IsSpent};
ghost use Rattle.app_reading.specs.Reading as spec;
ghost use Rattle.app_reading.specs.declared.fault.TextsFault.TheVariants.{ReadFault};

use crate::fault::TextsFault;
use crate::paths::part_paths;
use app_files::{MAX_FILES, MAX_PHP_BYTES, MAX_STATIC_BYTES, is_php};
use app_load::LimitName;
use less_outside::{Folder, FolderFault, Found};
use less_terms::is_path;
use std::alloc::{AllocError, Global};

// What was read so far, and how many bytes may still be read of PHP files and of the others.
#[derive(Drop)]
struct Reading {
    texts: Vec<(String, Vec<u8>)>,
    php_left: usize,
    static_left: usize,
    passes_static: bool,
}

fn begin(alloc: Global) -> Reading
    ensures { HasRead [] result }
{
    Reading {
        texts: Vec::new(alloc),
        php_left: MAX_PHP_BYTES,
        static_left: MAX_STATIC_BYTES,
        passes_static: false,
    }
}

// How many bytes may still be read at a path.
fn bytes_left(reading: &Reading, path: &str) -> usize
    ensures { result ≡ room reading.now path.now }
{
    if is_php(path.as_bytes()) {
        reading.php_left
    } else {
        reading.static_left
    }
}

// Takes bytes off those that may still be read at a path.
fn spend(reading: &mut Reading, path: &str, len: usize)
    requires { len ≤ room reading.old path.now }
    ensures { IsSpent path.now len reading.old reading.new }
{
    if is_php(path.as_bytes()) {
        reading.php_left -= len;
    } else {
        reading.static_left -= len;
    }
}

// Keeps a text that was read.
fn keep(alloc: Global, reading: &mut Reading, path: &str, text: Vec<u8>) -> Result<(), AllocError>
    requires within { length text.items ≤ room reading.old path.now }
    ensures read { OnOk result ((seen : List Text) → HasRead seen reading.old → HasRead (with_text seen (Some (path.now, text.items))) reading.new) }
    ensures paths { OnOk result (paths_of reading.new.texts.items ≡ paths_of reading.old.texts.items ++ path.now ∷ []) }
{
    let name = String::from_str(alloc, path)?;
    spend(reading, path, text.len());
    reading.texts.push((name, text))?;
    Ok(())
}

// Notes what was found at a path.
fn note(alloc: Global, reading: &mut Reading, path: &str, found: Found) -> Result<(), TextsFault>
    requires within { IsWithin (room reading.old path.now) found }
    ensures read { OnOk result ((there : Option (List ℕ)) (seen : List Text) → IsFound there (room reading.old path.now) found → HasRead seen reading.old → HasRead (with_text seen (text_there path.now there)) reading.new) }
    ensures limit { IfErr result (λ fault. (there : Option (List ℕ)) (seen : List Text) → IsFound there (room reading.old path.now) found → HasRead seen reading.old → PassesTotal (with_text seen (text_there path.now there)) fault) }
    ensures paths { OnOk result (Adds path.now (paths_of reading.old.texts.items) (paths_of reading.new.texts.items)) }
    ensures no_fault { IsErrOf result ReadFault → ⊥ }
{
    match found {
        Found::Absent => Ok(()),
        Found::TooLong => {
            if is_php(path.as_bytes()) {
                return Err(TextsFault::Limit(LimitName::Total));
            }
            reading.passes_static = true;
            Ok(())
        }
        Found::Bytes(text) => {
            keep(alloc, reading, path, text)?;
            Ok(())
        }
    }
}

// Reads the file of a path below a folder's path, where it has at most `max` bytes.
fn find<F: Folder>(
    alloc: Global,
    folder: &mut F,
    below: &str,
    path: &str,
    max: usize,
) -> Result<Found, FolderFault>
    ensures found { IfOk result (λ found. IfSome (F.told folder.old) (λ files. IsFound (fin.get files (whole below.now path.now)) max found)) }
    ensures within { IfOk result (IsWithin max) }
    ensures kept { Stays (F.told folder.old) (F.told folder.new) }
    ensures cause { HasFolderCause (F.read_count folder.old) (F.read_count folder.new) result }
    ensures writes { F.write_count folder.new ≡ F.write_count folder.old }
{
    let mut place = String::from_str(alloc, below)?;
    place.push('/')?;
    place.push_str(path)?;
    let found = folder.read(alloc, place.as_str(), max)?;
    Ok(found)
}

fn read_part<F: Folder>(
    alloc: Global,
    folder: &mut F,
    below: &str,
    path: &str,
    reading: &mut Reading,
) -> Result<(), TextsFault>
    ensures read { OnOk result (IfSome (F.told folder.old) (λ files. (seen : List Text) → HasRead seen reading.old → HasRead (with_text seen (text_in below.now files path.now)) reading.new)) }
    ensures limit { IfErr result (λ fault. IfSome (F.told folder.old) (λ files. (seen : List Text) → HasRead seen reading.old → PassesTotal (with_text seen (text_in below.now files path.now)) fault)) }
    ensures paths { OnOk result (Adds path.now (paths_of reading.old.texts.items) (paths_of reading.new.texts.items)) }
    ensures kept { Stays (F.told folder.old) (F.told folder.new) }
    ensures cause { HasReadCause ReadFault (F.read_count folder.old) (F.read_count folder.new) result }
    ensures writes { F.write_count folder.new ≡ F.write_count folder.old }
{
    let max = bytes_left(reading, path);
    let found = find(alloc, folder, below, path, max)?;
    note(alloc, reading, path, found)?;
    Ok(())
}

fn read_parts<F: Folder>(
    alloc: Global,
    folder: &mut F,
    below: &str,
    paths: &[String],
) -> Result<Reading, TextsFault>
    requires ascending { IsStrictlySortedBy (slice_cmp nat_cmp) (map string_bytes paths.now) }
    ensures read { IfOk result (λ reading. IfSome (F.told folder.old) (λ files. HasRead (texts_in below.now files (map string_bytes paths.now)) reading)) }
    ensures limit { IfErr result (λ fault. IfSome (F.told folder.old) (λ files. PassesTotal (texts_in below.now files (map string_bytes paths.now)) fault)) }
    ensures ascending { IfOk result (λ reading. IsStrictlySortedBy (slice_cmp nat_cmp) (paths_of reading.texts.items)) }
    ensures kept { Stays (F.told folder.old) (F.told folder.new) }
    ensures cause { HasReadCause ReadFault (F.read_count folder.old) (F.read_count folder.new) result }
    ensures writes { F.write_count folder.new ≡ F.write_count folder.old }
{
    let mut reading = begin(alloc);
    for path in paths {
        read_part(alloc, folder, below, path.as_str(), &mut reading)?;
    }
    Ok(reading)
}

fn are_paths(paths: &[String]) -> bool
    ensures { result ≡ list_all is_path_text (map string_bytes paths.now) }
{
    for path in paths {
        if !is_path(path.as_bytes()) {
            return false;
        }
    }
    true
}

// The first limit of the whole that paths alone pass.
fn path_limit(paths: &[String]) -> Option<LimitName>
    ensures { result ≡ spec.path_limit (map string_bytes paths.now) }
{
    if !are_paths(paths) {
        return Some(LimitName::Path);
    }
    if paths.len() > MAX_FILES {
        return Some(LimitName::Files);
    }
    None
}

/// The texts of the application below a folder's path, with their paths cut of it, in byte order; or the first limit of the
/// whole that they pass, told before more is read than it takes to tell it: at most 8 MiB of PHP files and 32 MiB of the others
/// are held at a time.
pub fn read_texts<F: Folder>(
    alloc: Global,
    folder: &mut F,
    below: &str,
) -> Result<Vec<(String, Vec<u8>)>, TextsFault>
    ensures texts { IfOk result (λ texts. IfSome (F.told folder.old) (λ files. AreTextsIn below.now files (map text_of texts.items))) }
    ensures once { IfOk result (λ texts. IsOnce texts.items) }
    ensures limit { IfErr result (λ fault. IfSome (F.told folder.old) (λ files. IsLimitIn below.now files fault)) }
    ensures kept { Stays (F.told folder.old) (F.told folder.new) }
    ensures cause { HasReadCause ReadFault (F.read_count folder.old) (F.read_count folder.new) result }
    ensures writes { F.write_count folder.new ≡ F.write_count folder.old }
{
    let paths = part_paths(alloc, folder, below)?;
    if let Some(limit) = path_limit(&paths) {
        return Err(TextsFault::Limit(limit));
    }
    let reading = read_parts(alloc, folder, below, &paths)?;
    if reading.passes_static {
        return Err(TextsFault::Limit(LimitName::Static));
    }
    Ok(reading.texts)
}
