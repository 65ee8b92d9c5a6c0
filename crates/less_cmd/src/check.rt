// The command `check`.
ghost use Rattle.std.specs.Prelude.{◌≡◌, IfSome};
ghost use Rattle.less_terms.specs.Causes.{Rose};
ghost use Rattle.less_outside.specs.Told.{Stays};
ghost use Rattle.less_cmd.specs.Status.{Ends, IsSilent};
ghost use Rattle.less_cmd.specs.Words as asked;

use crate::answer::write_answer;
use crate::status::Status;
use folder_loader::{AppRefusal, load_app_in};
use less_outside::{Folder, Sink};
use load_notes::{accepted_text, app_note};
use std::alloc::Global;

/// Tells whether the application is accepted. Nothing is written to the folder.
pub fn check<F: Folder, O: Sink>(alloc: Global, folder: &mut F, out: &mut O) -> Status
    ensures end { IfSome (F.told folder.old) (Ends asked.check result (O.told out.old) (O.told out.new)) }
    ensures read_fault { result ≡ Status.ReadFault → Rose (F.read_count folder.old) (F.read_count folder.new) }
    ensures write_fault { result ≡ Status.WriteFault → Rose (O.count out.old) (O.count out.new) }
    ensures silent { IsSilent result → out.new ≡ out.old }
    ensures kept { Stays (F.told folder.old) (F.told folder.new) }
    ensures writes { F.write_count folder.new ≡ F.write_count folder.old }
{
    match load_app_in(alloc, folder, "app") {
        Ok(app) => match accepted_text(alloc, app.files()) {
            Ok(text) => write_answer(&text, out),
            Err(_) => Status::Memory,
        },
        Err(AppRefusal::At { file, line, kind }) => match app_note(alloc, &file, line, &kind) {
            Ok(note) => Status::AppRefused(note),
            Err(_) => Status::Memory,
        },
        Err(AppRefusal::ReadFault) => Status::ReadFault,
        Err(AppRefusal::Memory) => Status::Memory,
    }
}
