// The command `play`.
ghost use Rattle.std.specs.Prelude.{◌≡◌, ℕ, true, List, IfOk, IfSome};
ghost use Rattle.std.specs.FinMap as fin;
ghost use Rattle.app_load.specs.Files.{files_of};
ghost use Rattle.less_terms.specs.Causes.{Rose};
ghost use Rattle.less_outside.specs.Folder.{HasFolderCause};
ghost use Rattle.less_outside.specs.Told.{Stays};
ghost use Rattle.less_cmd.specs.Answers.{IsReplyOf};
ghost use Rattle.less_cmd.specs.Reply as spec;
ghost use Rattle.less_cmd.specs.Status.{Ends, IsSilent};
ghost use Rattle.less_cmd.specs.Words as asked;

use crate::answer::write_answer;
use crate::reply::reply_bytes;
use crate::status::Status;
use app_files::Program;
use folder_loader::{CopyRefusal, load_copy_in};
use less_outside::{Folder, FolderFault, Found, Sink};
use load_notes::copy_note;
use plain_page::run_files;
use std::alloc::{AllocError, Global};

/// The budget of a request, in ticks.
const BUDGET: u32 = 1_000_000;

// Whether the script is the one request that is answered so far.
fn is_request<F: Folder>(alloc: Global, folder: &mut F, script: &str) -> Result<bool, FolderFault>
    ensures value { IfOk result (λ yes. IfSome (F.told folder.old) (λ files. spec.is_request (fin.get files script.now) ≡ yes)) }
    ensures kept { Stays (F.told folder.old) (F.told folder.new) }
    ensures cause { HasFolderCause (F.read_count folder.old) (F.read_count folder.new) result }
    ensures writes { F.write_count folder.new ≡ F.write_count folder.old }
{
    let wanted = b"request 18\nGET / HTTP/1.0\r\n\r\n\n";
    let found = folder.read(alloc, script, wanted.len())?;
    match found {
        Found::Bytes(bytes) => Ok(bytes.as_slice() == wanted.as_slice()),
        _ => Ok(false),
    }
}

// The reply to the run of a copy that is a plain page.
fn page_reply(alloc: Global, program: &Program) -> Result<Option<Vec<u8>>, AllocError>
    ensures { IfOk result (IsReplyOf (files_of program.now)) }
{
    match run_files(alloc, program.files(), BUDGET)? {
        Some(run) => Ok(Some(reply_bytes(alloc, &run)?)),
        None => Ok(None),
    }
}

// Answers the request from the guest's copy.
fn play_copy<F: Folder, O: Sink>(alloc: Global, folder: &mut F, out: &mut O) -> Status
    ensures end { (script : List ℕ) → IfSome (F.told folder.old) (λ files. spec.is_request (fin.get files script) ≡ true → Ends (asked.play script) result (O.told out.old) (O.told out.new) files) }
    ensures read_fault { result ≡ Status.ReadFault → Rose (F.read_count folder.old) (F.read_count folder.new) }
    ensures write_fault { result ≡ Status.WriteFault → Rose (O.count out.old) (O.count out.new) }
    ensures silent { IsSilent result → out.new ≡ out.old }
    ensures kept { Stays (F.told folder.old) (F.told folder.new) }
    ensures writes { F.write_count folder.new ≡ F.write_count folder.old }
{
    match load_copy_in(alloc, folder, "copies/guest") {
        Ok(program) => match page_reply(alloc, &program) {
            Ok(Some(reply)) => write_answer(&reply, out),
            Ok(None) => Status::NotBuilt,
            Err(_) => Status::Memory,
        }
        Err(CopyRefusal::At { file, line, kind }) => match copy_note(
            alloc, "guest", &file, line, kind,
        ) {
            Ok(note) => Status::CopyRefused(note),
            Err(_) => Status::Memory,
        },
        Err(CopyRefusal::ReadFault) => Status::ReadFault,
        Err(CopyRefusal::Memory) => Status::Memory,
    }
}

/// Answers the request of a script from the guest's copy. Nothing is written to the folder.
pub fn play<F: Folder, O: Sink>(alloc: Global, folder: &mut F, script: &str, out: &mut O) -> Status
    ensures end { IfSome (F.told folder.old) (Ends (asked.play script.now) result (O.told out.old) (O.told out.new)) }
    ensures read_fault { result ≡ Status.ReadFault → Rose (F.read_count folder.old) (F.read_count folder.new) }
    ensures write_fault { result ≡ Status.WriteFault → Rose (O.count out.old) (O.count out.new) }
    ensures silent { IsSilent result → out.new ≡ out.old }
    ensures kept { Stays (F.told folder.old) (F.told folder.new) }
    ensures writes { F.write_count folder.new ≡ F.write_count folder.old }
{
    match is_request(alloc, folder, script) {
        Ok(true) => play_copy(alloc, folder, out),
        Ok(false) => Status::NotBuilt,
        Err(FolderFault::Failed) => Status::ReadFault,
        Err(FolderFault::Memory) => Status::Memory,
    }
}
