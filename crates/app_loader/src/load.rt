// Loads applications and copies.
ghost use Rattle.std.specs.Prelude.{◌≡◌, IfOk, IfErr};
ghost use Rattle.app_load.specs.Files.{files_of};
ghost use Rattle.app_load.specs.Applications.{IsOnce, IsOutcomeOf, accepted, IsApplication, IsAppFault, IsProgram, IsCopyFault};
ghost use Rattle.app_loader.specs.Loading.{IsLoadFault};

use crate::fault::LoadFault;
use crate::files::judge_files;
use crate::functions::passes_functions;
use crate::parser::Parser;
use app_files::{App, FileSet, Program, first_limit, put_in_order};
use app_load::judge::Setting;
use app_load::{AppFault, AppKind, CopyFault, CopyKind, LimitName};
use std::alloc::Global;

// The files in order, each PHP file with its tree; or the first fault.
#[tactic(auto, using(crate::proofs::Totals::limit_refused, crate::proofs::Totals::files_refused, crate::proofs::Totals::too_many_refused, crate::proofs::Totals::all_accepted, crate::proofs::Totals::all_whole))]
fn load<P: Parser>(
    alloc: Global,
    parser: &P,
    setting: Setting,
    mut files: Vec<(String, Vec<u8>)>,
) -> Result<FileSet, LoadFault>
    requires { IsOnce files.items }
    ensures files { IfOk result (λ set. IsOutcomeOf setting files.items (accepted (files_of set))) }
    ensures fault { IfErr result (IsLoadFault setting files.items) }
{
    put_in_order(&mut files);
    if let Some(limit) = first_limit(&files) {
        return Err(LoadFault::At {
            file: String::new(alloc),
            line: 0,
            kind: AppKind::Limit(limit),
        });
    }
    let judged = judge_files(alloc, parser, setting, files)?;
    if passes_functions(&judged) {
        return Err(LoadFault::At {
            file: String::new(alloc),
            line: 0,
            kind: AppKind::Limit(LimitName::Functions),
        });
    }
    Ok(FileSet::new(judged))
}

/// Loads an application from its files, of which no path stands twice; or tells its first fault.
#[tactic(auto, using(crate::proofs::Totals::none_strays))]
pub fn load_app<P: Parser>(
    alloc: Global,
    parser: &P,
    files: Vec<(String, Vec<u8>)>,
) -> Result<App, AppFault>
    requires once { IsOnce files.items }
    ensures app { IfOk result (λ app. IsApplication files.items (files_of app)) }
    ensures fault { IfErr result (IsAppFault files.items) }
{
    match load(alloc, parser, Setting::Application, files) {
        Ok(set) => {
            let app = App::new(alloc, set)?;
            Ok(app)
        }
        Err(LoadFault::At { file, line, kind }) => Err(AppFault::At { file, line, kind }),
        Err(LoadFault::Stray { .. }) => unreachable!(),
        Err(LoadFault::Memory) => Err(AppFault::Memory),
    }
}

/// Loads a copy of an application from its files, of which no path stands twice; or tells its first fault.
pub fn load_copy<P: Parser>(
    alloc: Global,
    parser: &P,
    files: Vec<(String, Vec<u8>)>,
) -> Result<Program, CopyFault>
    requires once { IsOnce files.items }
    ensures program { IfOk result (λ program. IsProgram files.items (files_of program)) }
    ensures fault { IfErr result (IsCopyFault files.items) }
{
    match load(alloc, parser, Setting::Copy, files) {
        Ok(set) => {
            let program = Program::new(alloc, set)?;
            Ok(program)
        }
        Err(LoadFault::At { file, line, .. }) => Err(CopyFault::At {
            file,
            line,
            kind: CopyKind::BadFile,
        }),
        Err(LoadFault::Stray { file, line }) => Err(CopyFault::At {
            file,
            line,
            kind: CopyKind::Placeholder,
        }),
        Err(LoadFault::Memory) => Err(CopyFault::Memory),
    }
}
