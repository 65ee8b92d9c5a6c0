// Programs that differ in nothing but the texts of their PHP files.
ghost use Rattle.std.specs.Prelude.{◌≡◌, IfOk, map};
ghost use Rattle.std.specs.List.{list_all};
ghost use Rattle.app_load.specs.Applications.{text_of};
ghost use Rattle.role_copies.specs.Alike as spec;

use app_files::{Program, is_php};
use app_load::AppFile;
use std::alloc::{AllocError, Global};

/// Whether a file is a PHP file.
pub(crate) fn is_script(file: &AppFile) -> bool
    ensures { result ≡ spec.is_script file.now }
{
    is_php(file.path.as_bytes())
}

fn is_alike(file: &AppFile, other: &AppFile) -> bool
    ensures { result ≡ spec.is_alike file.now other.now }
{
    if file.path.as_bytes() != other.path.as_bytes() {
        return false;
    }
    is_script(file) || file.text.as_slice() == other.text.as_slice()
}

fn are_alike(files: &[AppFile], others: &[AppFile]) -> bool
    ensures { result ≡ spec.are_alike files.now others.now }
{
    let mut rest = others;
    for file in files {
        let [other, more @ ..] = rest else {
            return false;
        };
        if !is_alike(file, other) {
            return false;
        }
        rest = more;
    }
    rest.is_empty()
}

/// Whether programs are alike to some files.
pub(crate) fn all_alike(files: &[AppFile], programs: &[Program]) -> bool
    ensures { result ≡ list_all (spec.are_alike files.now) programs.now }
{
    programs
        .iter()
        .all(|program| are_alike(files, program.files()))
}

fn text_in(alloc: Global, file: &AppFile) -> Result<(String, Vec<u8>), AllocError>
    ensures { IfOk result (λ text. text_of text ≡ spec.text_in file.now) }
{
    let path = file.path.clone()?;
    let text = Vec::from_slice(alloc, &file.text)?;
    Ok((path, text))
}

/// The static files among some files.
#[tactic(auto, using(crate::proofs::Walks::static_added, crate::proofs::Walks::script_passed))]
pub(crate) fn statics_of(
    alloc: Global,
    files: &[AppFile],
) -> Result<Vec<(String, Vec<u8>)>, AllocError>
    ensures { IfOk result (λ statics. map text_of statics.items ≡ spec.static_texts files.now) }
{
    let mut statics = Vec::new(alloc);
    for file in files {
        if is_script(file) {
            continue;
        }
        let text = text_in(alloc, file)?;
        statics.push(text)?;
    }
    Ok(statics)
}
