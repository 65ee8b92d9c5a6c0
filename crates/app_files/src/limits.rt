// The limits of all files together.
ghost use Rattle.std.specs.Prelude.{◌≡◌, map, nat_lt};
ghost use Rattle.std.specs.List.{list_all, sum_by};
ghost use Rattle.less_terms.specs.Paths.{is_path as is_path_text};
ghost use Rattle.app_load.specs.Files.{is_php as is_php_path};
ghost use Rattle.app_load.specs.Applications as spec;

use app_load::LimitName;
use less_terms::is_path;

/// The greatest count of files.
pub const MAX_FILES: usize = 2_000;

/// The greatest size of all PHP files together, in bytes.
pub const MAX_PHP_BYTES: usize = 8_388_608;

/// The greatest size of all other files together, in bytes.
pub const MAX_STATIC_BYTES: usize = 33_554_432;

/// Whether a path is that of a PHP file.
pub fn is_php(path: &[u8]) -> bool
    ensures { result ≡ is_php_path path.now }
{
    path.ends_with(b".php")
}

fn are_paths(files: &[(String, Vec<u8>)]) -> bool
    ensures { result ≡ list_all (λ t. is_path_text t.0) (map spec.text_of files.now) }
{
    for (path, _) in files {
        if !is_path(path.as_bytes()) {
            return false;
        }
    }
    true
}

// The bytes of a PHP file, 0 for every other file.
fn php_len(file: &(String, Vec<u8>)) -> usize
    ensures { result ≡ spec.php_length (spec.text_of file.now) }
{
    if is_php(file.0.as_bytes()) {
        file.1.len()
    } else {
        0
    }
}

// The bytes of a file that is no PHP file, 0 for a PHP file.
fn static_len(file: &(String, Vec<u8>)) -> usize
    ensures { result ≡ spec.static_length (spec.text_of file.now) }
{
    if is_php(file.0.as_bytes()) {
        0
    } else {
        file.1.len()
    }
}

// Whether all PHP files together have too many bytes.
#[tactic(auto, using(crate::proofs::Sums::sum_begins, crate::proofs::Sums::sum_goes_on, crate::proofs::Sums::sum_passes, crate::proofs::Sums::sum_ends))]
fn passes_php(files: &[(String, Vec<u8>)]) -> bool
    ensures { result ≡ nat_lt 8388608 (sum_by spec.php_length (map spec.text_of files.now)) }
{
    let mut left = MAX_PHP_BYTES;
    for file in files {
        let len = php_len(file);
        if len > left {
            return true;
        }
        left -= len;
    }
    false
}

// Whether all other files together have too many bytes.
#[tactic(auto, using(crate::proofs::Sums::sum_begins, crate::proofs::Sums::sum_goes_on, crate::proofs::Sums::sum_passes, crate::proofs::Sums::sum_ends))]
fn passes_static(files: &[(String, Vec<u8>)]) -> bool
    ensures { result ≡ nat_lt 33554432 (sum_by spec.static_length (map spec.text_of files.now)) }
{
    let mut left = MAX_STATIC_BYTES;
    for file in files {
        let len = static_len(file);
        if len > left {
            return true;
        }
        left -= len;
    }
    false
}

/// The first limit of the whole that files pass: of their paths, their count, the bytes of the PHP files, and those of the others.
pub fn first_limit(files: &[(String, Vec<u8>)]) -> Option<LimitName>
    ensures { result ≡ spec.first_limit (map spec.text_of files.now) }
{
    if !are_paths(files) {
        return Some(LimitName::Path);
    }
    if files.len() > MAX_FILES {
        return Some(LimitName::Files);
    }
    if passes_php(files) {
        return Some(LimitName::Total);
    }
    if passes_static(files) {
        return Some(LimitName::Static);
    }
    None
}
