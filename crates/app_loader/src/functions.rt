// How many functions files have.
ghost use Rattle.std.specs.Prelude.{◌≡◌, nat_lt};
ghost use Rattle.std.specs.List.{All};
ghost use Rattle.app_files.specs.FileSets.{IsWhole};
ghost use Rattle.app_load.specs.Files.{file_of, files_of};
ghost use Rattle.app_load.specs.Applications.{function_count, functions_of_all};

use app_load::AppFile;

/// The greatest count of functions with a body.
pub const MAX_FUNCTIONS: usize = 20_000;

#[tactic(auto, using(crate::proofs::Counts::counted, crate::proofs::Counts::none_counted))]
fn function_len(file: &AppFile) -> usize
    requires { IsWhole file.now }
    ensures { result ≡ function_count (file_of file.now).tree }
{
    match &file.tree {
        Some(tree) => tree.functions.len(),
        None => 0,
    }
}

/// Whether all files together have too many functions with a body.
#[tactic(auto, using(app_files::proofs::Sums::sum_begins, app_files::proofs::Sums::sum_goes_on, app_files::proofs::Sums::sum_passes, app_files::proofs::Sums::sum_ends))]
pub fn passes_functions(files: &[AppFile]) -> bool
    requires { All IsWhole files.now }
    ensures { result ≡ nat_lt 20000 (functions_of_all (files_of files.now)) }
{
    let mut left = MAX_FUNCTIONS;
    for file in files {
        let len = function_len(file);
        if len > left {
            return true;
        }
        left -= len;
    }
    false
}
