// The line of an application that is accepted.
ghost use Rattle.std.specs.Prelude.{◌≡◌, ◌+◌, ◌++◌, IfOk, OnOk, is_some, if◌then◌else◌};
ghost use Rattle.std.specs.List.{All, sum_by};
ghost use Rattle.std.specs.Fmt.{decimal};
ghost use Rattle.app_load.specs.Files.{file_of, files_of};
ghost use Rattle.app_load.specs.Applications.{function_count, functions_of_all};
ghost use Rattle.app_files.specs.FileSets.{IsWhole, AreWhole};
ghost use Rattle.load_notes.specs.Notes as spec;

use crate::notes::push_number;
use app_load::AppFile;
use less_terms::{Memory, count_lines};
use std::alloc::{AllocError, Global};

// The sum of two counts. That it passes its type would count as want of memory.
fn sum(left: usize, right: usize) -> Result<usize, Memory>
    ensures { IfOk result (λ sum. sum ≡ left + right) }
{
    match left.checked_add(right) {
        Some(sum) => Ok(sum),
        None => Err(AllocError),
    }
}

// 1 for a PHP file, 0 for every other file.
fn php_len(file: &AppFile) -> usize
    ensures { result ≡ (if is_some (file_of file.now).tree then 1 else 0) }
{
    if file.tree.is_some() { 1 } else { 0 }
}

#[tactic(auto, using(crate::proofs::Sums::begins, crate::proofs::Sums::goes_on, crate::proofs::Sums::ends))]
fn php_sum(files: &[AppFile]) -> Result<usize, Memory>
    ensures { IfOk result (λ sum. sum ≡ spec.php_count (files_of files.now)) }
{
    let mut count = 0;
    for file in files {
        count = sum(count, php_len(file))?;
    }
    Ok(count)
}

#[tactic(auto, using(app_loader::proofs::Counts::counted, app_loader::proofs::Counts::none_counted))]
fn function_len(file: &AppFile) -> usize
    requires { IsWhole file.now }
    ensures { result ≡ function_count (file_of file.now).tree }
{
    match &file.tree {
        Some(tree) => tree.functions.len(),
        None => 0,
    }
}

#[tactic(auto, using(crate::proofs::Sums::begins, crate::proofs::Sums::goes_on, crate::proofs::Sums::ends))]
fn function_sum(files: &[AppFile]) -> Result<usize, Memory>
    requires { All IsWhole files.now }
    ensures { IfOk result (λ sum. sum ≡ functions_of_all (files_of files.now)) }
{
    let mut count = 0;
    for file in files {
        count = sum(count, function_len(file))?;
    }
    Ok(count)
}

fn line_len(file: &AppFile) -> usize
    ensures { result ≡ spec.php_lines (file_of file.now) }
{
    match file.tree {
        Some(_) => count_lines(file.text.as_slice()),
        None => 0,
    }
}

#[tactic(auto, using(crate::proofs::Sums::begins, crate::proofs::Sums::goes_on, crate::proofs::Sums::ends))]
fn line_sum(files: &[AppFile]) -> Result<usize, Memory>
    ensures { IfOk result (λ sum. sum ≡ sum_by spec.php_lines (files_of files.now)) }
{
    let mut count = 0;
    for file in files {
        count = sum(count, line_len(file))?;
    }
    Ok(count)
}

// Puts a number and a word behind a text.
fn push_count(text: &mut Vec<u8>, number: usize, word: &[u8]) -> Result<(), Memory>
    ensures { OnOk result (text.new.items ≡ text.old.items ++ (decimal number ++ word.now)) }
{
    push_number(text, number as u64)?;
    text.extend_from_slice(word)?;
    Ok(())
}

/// The line of an application that is accepted, with its line end: `ok F files G functions L lines`. It counts the PHP files,
/// their functions with a body, and their lines.
pub fn accepted_text(alloc: Global, files: &[AppFile]) -> Result<Vec<u8>, Memory>
    requires { AreWhole files.now }
    ensures { IfOk result (λ text. text.items ≡ spec.accepted_text (files_of files.now)) }
{
    let php = php_sum(files)?;
    let functions = function_sum(files)?;
    let lines = line_sum(files)?;
    let mut text = Vec::from_slice(alloc, b"ok ")?;
    push_count(&mut text, php, b" files ")?;
    push_count(&mut text, functions, b" functions ")?;
    push_count(&mut text, lines, b" lines\n")?;
    Ok(text)
}
