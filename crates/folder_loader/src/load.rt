// Loads applications and copies from a folder.
ghost use Rattle.std.specs.Prelude.{◌≡◌, IfOk, IfErr, IfSome};
ghost use Rattle.less_outside.specs.Told.{Stays};
ghost use Rattle.app_load.specs.Files.{files_of};
ghost use Rattle.app_reading.specs.Texts.{HasReadCause};
ghost use Rattle.folder_loader.specs.Folders.{IsApplicationIn, IsSomeApplication, IsAppRefusalIn, IsProgramIn, IsSomeProgram, IsCopyRefusalIn};
ghost use Rattle.folder_loader.specs.declared.fault.AppRefusal.TheVariants as app;
ghost use Rattle.folder_loader.specs.declared.fault.CopyRefusal.TheVariants as copy;

use crate::fault::{AppRefusal, CopyRefusal};
use app_files::{App, Program};
use app_load::{AppFault, AppKind, CopyFault, CopyKind};
use app_loader::{load_app, load_copy};
use app_parser::PhpParser;
use app_reading::{TextsFault, read_texts};
use less_outside::Folder;
use std::alloc::Global;

/// Loads the application below a folder's path. The files of which a segment begins with a dot are no part of it. Nothing is
/// written.
pub fn load_app_in<F: Folder>(alloc: Global, folder: &mut F, below: &str) -> Result<App, AppRefusal>
    ensures app { IfOk result (λ app. IfSome (F.told folder.old) (λ files. IsApplicationIn below.now files (files_of app))) }
    ensures accepted { IfOk result (λ app. IsSomeApplication (files_of app)) }
    ensures fault { IfErr result (λ refusal. IfSome (F.told folder.old) (λ files. IsAppRefusalIn below.now files refusal)) }
    ensures kept { Stays (F.told folder.old) (F.told folder.new) }
    ensures cause { HasReadCause app.ReadFault (F.read_count folder.old) (F.read_count folder.new) result }
    ensures writes { F.write_count folder.new ≡ F.write_count folder.old }
{
    let texts = match read_texts(alloc, folder, below) {
        Ok(texts) => texts,
        Err(TextsFault::Limit(limit)) => {
            return Err(AppRefusal::At {
                file: String::new(alloc),
                line: 0,
                kind: AppKind::Limit(limit),
            });
        }
        Err(TextsFault::ReadFault) => return Err(AppRefusal::ReadFault),
        Err(TextsFault::Memory) => return Err(AppRefusal::Memory),
    };
    match load_app(alloc, &PhpParser, texts) {
        Ok(app) => Ok(app),
        Err(AppFault::At { file, line, kind }) => Err(AppRefusal::At { file, line, kind }),
        Err(AppFault::Memory) => Err(AppRefusal::Memory),
    }
}

/// Loads the copy of an application below a folder's path, as an application is loaded.
pub fn load_copy_in<F: Folder>(
    alloc: Global,
    folder: &mut F,
    below: &str,
) -> Result<Program, CopyRefusal>
    ensures program { IfOk result (λ program. IfSome (F.told folder.old) (λ files. IsProgramIn below.now files (files_of program))) }
    ensures accepted { IfOk result (λ program. IsSomeProgram (files_of program)) }
    ensures fault { IfErr result (λ refusal. IfSome (F.told folder.old) (λ files. IsCopyRefusalIn below.now files refusal)) }
    ensures kept { Stays (F.told folder.old) (F.told folder.new) }
    ensures cause { HasReadCause copy.ReadFault (F.read_count folder.old) (F.read_count folder.new) result }
    ensures writes { F.write_count folder.new ≡ F.write_count folder.old }
{
    let texts = match read_texts(alloc, folder, below) {
        Ok(texts) => texts,
        Err(TextsFault::Limit(_)) => {
            return Err(CopyRefusal::At {
                file: String::new(alloc),
                line: 0,
                kind: CopyKind::BadFile,
            });
        }
        Err(TextsFault::ReadFault) => return Err(CopyRefusal::ReadFault),
        Err(TextsFault::Memory) => return Err(CopyRefusal::Memory),
    };
    match load_copy(alloc, &PhpParser, texts) {
        Ok(program) => Ok(program),
        Err(CopyFault::At { file, line, kind }) => Err(CopyRefusal::At { file, line, kind }),
        Err(CopyFault::Memory) => Err(CopyRefusal::Memory),
    }
}
