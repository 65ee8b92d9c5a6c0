// The paths of an application's files.
ghost use Rattle.std.specs.Prelude.{◌≡◌, ◌↔◌, ◌++◌, ◌∷◌, [], ℕ, List, IfOk, IfSome, OnOk, true, map, string_bytes};
ghost use Rattle.std.specs.List.{list_all, slice_split, filter_map, cons_option, Contains};
ghost use Rattle.std.specs.List.Sorted.{IsStrictlySortedBy};
ghost use Rattle.std.specs.Ordering.{nat_cmp};
ghost use Rattle.std.specs.Cmp.Lexicographic.{slice_cmp};
ghost use Rattle.std.specs.Option.{option_copied};
ghost use Rattle.std.specs.FinMap as fin;
ghost use Rattle.less_outside.specs.Told.{Stays};
ghost use Rattle.less_outside.specs.Folder.{HasFolderCause};
ghost use Rattle.app_reading.specs.Parts as spec;

use less_outside::{Folder, FolderFault};
use std::alloc::{AllocError, Global};

fn is_visible(segment: &[u8]) -> bool
    ensures { result ≡ spec.is_visible segment.now }
{
    !matches!(segment, [b'.', ..])
}

/// Whether a path is one of an application: no segment begins with a dot.
pub fn is_part(path: &[u8]) -> bool
    ensures { result ≡ spec.is_part path.now }
{
    path.split(|&byte| byte == b'/')
        .all(|segment| is_visible(segment))
}

fn rest_after<'a>(path: &'a str, front: &str) -> Option<&'a str>
    ensures { option_copied result ≡ spec.rest_after front.now path.now }
{
    path.strip_prefix(front)
}

// The rest of a path that begins with `front`, where the rest is a path of an application.
fn part_of<'a>(path: &'a str, front: &str) -> Option<&'a str>
    ensures { option_copied result ≡ spec.part_of front.now path.now }
{
    match rest_after(path, front) {
        Some(rest) if is_part(rest.as_bytes()) => Some(rest),
        _ => None,
    }
}

// Adds what is cut of a path, where that is a path of an application.
fn push_part(
    parts: &mut Vec<String>,
    alloc: Global,
    path: &str,
    front: &str,
) -> Result<(), AllocError>
    ensures { OnOk result (map string_bytes parts.new.items ≡ map string_bytes parts.old.items ++ cons_option (spec.part_of front.now path.now) []) }
{
    if let Some(part) = part_of(path, front) {
        parts.push(String::from_str(alloc, part)?)?;
    }
    Ok(())
}

fn parts_of(alloc: Global, listed: &[String], front: &str) -> Result<Vec<String>, AllocError>
    ensures { IfOk result (λ parts. map string_bytes parts.items ≡ filter_map (spec.part_of front.now) (map string_bytes listed.now)) }
{
    let mut parts = Vec::new(alloc);
    for path in listed {
        push_part(&mut parts, alloc, path, front)?;
    }
    Ok(parts)
}

// Puts paths into byte order, each once.
fn put_in_order(paths: &mut Vec<String>)
    ensures ascending { IsStrictlySortedBy (slice_cmp nat_cmp) (map string_bytes paths.new.items) }
    ensures same { (path : List ℕ) → Contains (map string_bytes paths.new.items) path ↔ Contains (map string_bytes paths.old.items) path }
{
    paths.sort_unstable();
    paths.dedup();
}

/// The paths of the files of the application below a folder, each cut of the folder's path, in byte order, none twice.
pub fn part_paths<F: Folder>(
    alloc: Global,
    folder: &mut F,
    below: &str,
) -> Result<Vec<String>, FolderFault>
    ensures paths { IfOk result (λ paths. IfSome (F.told folder.old) (λ files. spec.AreParts below.now (fin.keys files) (map string_bytes paths.items))) }
    ensures ascending { IfOk result (λ paths. IsStrictlySortedBy (slice_cmp nat_cmp) (map string_bytes paths.items)) }
    ensures visible { IfOk result (λ paths. (path : List ℕ) → Contains (map string_bytes paths.items) path → spec.is_part path ≡ true) }
    ensures kept { Stays (F.told folder.old) (F.told folder.new) }
    ensures cause { HasFolderCause (F.read_count folder.old) (F.read_count folder.new) result }
    ensures writes { F.write_count folder.new ≡ F.write_count folder.old }
{
    let listed = folder.list(alloc, below)?;
    let mut front = String::from_str(alloc, below)?;
    front.push('/')?;
    let mut paths = parts_of(alloc, &listed, &front)?;
    put_in_order(&mut paths);
    Ok(paths)
}
