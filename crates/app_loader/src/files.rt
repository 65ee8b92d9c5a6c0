// Judges the files of an application or of a copy, one after the other.
ghost use Rattle.std.specs.Prelude.{◌≡◌, List, map, IfOk, IfErr, string_bytes};
ghost use Rattle.std.specs.List.{All};
ghost use Rattle.app_files.specs.FileSets.{IsWhole};
ghost use Rattle.app_load.specs.Files.{file_of, files_of};
ghost use Rattle.app_load.specs.Applications.{Text, text_of, accepted, FilesJudged};
ghost use Rattle.app_loader.specs.Loading.{IsGood, IsBad, AreRefused};

use crate::fault::LoadFault;
use crate::parser::Parser;
use crate::text::judge_text;
use app_files::is_php;
use app_load::AppFile;
use app_load::judge::{FileFault, Setting};
use std::alloc::Global;

// A file with its tree, where it is accepted; else its first fault.
#[tactic(auto, using(crate::proofs::EachFile::static_good, crate::proofs::EachFile::php_good, crate::proofs::EachFile::php_refused, crate::proofs::EachFile::php_strayed, crate::proofs::EachFile::static_whole, crate::proofs::EachFile::php_whole))]
fn judge_file<P: Parser>(
    alloc: Global,
    parser: &P,
    setting: Setting,
    path: String,
    text: Vec<u8>,
) -> Result<AppFile, LoadFault>
    ensures good { IfOk result (λ file. IsGood setting (string_bytes path, text.items) (file_of file)) }
    ensures whole { IfOk result IsWhole }
    ensures bad { IfErr result (IsBad setting (string_bytes path, text.items)) }
{
    if !is_php(path.as_bytes()) {
        return Ok(AppFile {
            path,
            text,
            tree: None,
        });
    }
    match judge_text(alloc, parser, setting, path.as_bytes(), text.as_slice()) {
        Ok(tree) => Ok(AppFile {
            path,
            text,
            tree: Some(tree),
        }),
        Err(FileFault::At { line, kind }) => Err(LoadFault::At {
            file: path,
            line,
            kind,
        }),
        Err(FileFault::Stray { line }) => Err(LoadFault::Stray { file: path, line }),
        Err(FileFault::Memory) => Err(LoadFault::Memory),
    }
}

/// The files with their trees, in the order in which they were given, or the first fault.
#[tactic(auto, using(crate::proofs::EachFile::begins, crate::proofs::EachFile::goes_on, crate::proofs::EachFile::stops, crate::proofs::EachFile::ends))]
pub fn judge_files<P: Parser>(
    alloc: Global,
    parser: &P,
    setting: Setting,
    mut files: Vec<(String, Vec<u8>)>,
) -> Result<Vec<AppFile>, LoadFault>
    ensures files { IfOk result (λ judged. FilesJudged setting (map text_of files.items) (accepted (files_of judged.items))) }
    ensures whole { IfOk result (λ judged. All IsWhole judged.items) }
    ensures fault { IfErr result (AreRefused setting (map text_of files.items)) }
{
    files.reverse();
    let mut judged = Vec::new(alloc);
    while let Some((path, text)) = files.pop() {
        let file = judge_file(alloc, parser, setting, path, text)?;
        judged.push(file)?;
    }
    Ok(judged)
}
