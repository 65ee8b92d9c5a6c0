// The main entry: all that the program does, over what it is handed.
ghost use Rattle.std.specs.Prelude.{◌≡◌, IfSome, map, string_bytes};
ghost use Rattle.less_terms.specs.Causes.{Rose};
ghost use Rattle.less_outside.specs.Told.{Stays};
ghost use Rattle.less_cmd.specs.Answers.{IsAnswer, IsNotBuilt};
ghost use Rattle.less_cmd.specs.Status.{Ends, IsEnd, IsSilent, Noted, WritesNothing, Wrote, WrotePart, note_of};
ghost use Rattle.less_cmd.specs.Words.{asked};

use crate::check::check;
use crate::play::play;
use crate::status::Status;
use crate::words::{Command, command_of};
use less_outside::{Folder, Sink};
use std::alloc::Global;

// Does what the words ask for.
fn run<F: Folder, O: Sink>(alloc: Global, words: &[String], folder: &mut F, out: &mut O) -> Status
    ensures end { IfSome (F.told folder.old) (Ends (asked (map string_bytes words.now)) result (O.told out.old) (O.told out.new)) }
    ensures read_fault { result ≡ Status.ReadFault → Rose (F.read_count folder.old) (F.read_count folder.new) }
    ensures write_fault { result ≡ Status.WriteFault → Rose (O.count out.old) (O.count out.new) }
    ensures silent { IsSilent result → out.new ≡ out.old }
    ensures kept { Stays (F.told folder.old) (F.told folder.new) }
    ensures writes { F.write_count folder.new ≡ F.write_count folder.old }
{
    match command_of(words) {
        Command::Check => check(alloc, folder, out),
        Command::Play(script) => play(alloc, folder, script, out),
        Command::Unknown => Status::NotBuilt,
    }
}

// Writes the note of a status. A fault of the notes changes nothing else.
fn note<N: Sink>(status: &Status, notes: &mut N)
    ensures { Noted (N.told notes.old) (N.told notes.new) (N.count notes.old) (N.count notes.new) (note_of status.now) }
{
    let _ = status.write_note(notes);
}

/// Runs the command that the words name and answers the exit status: 0 done, 1 not built, 3 application refused, 6 read fault,
/// 7 write fault, 10 copy refused, 12 want of memory. Answers are written to `out`, and one line to `notes` where the status is not 0.
#[tactic(auto, using(crate::proofs::Statuses::is_done, crate::proofs::Statuses::is_not_built, crate::proofs::Statuses::is_read_fault, crate::proofs::Statuses::is_write_fault, crate::proofs::Statuses::is_silent))]
pub fn less_run<F: Folder, O: Sink, N: Sink>(
    alloc: Global,
    words: &[String],
    folder: &mut F,
    out: &mut O,
    notes: &mut N,
) -> u8
    ensures end { IsEnd result (N.told notes.old) (N.told notes.new) (N.count notes.old) (N.count notes.new) (λ end.
        IfSome (F.told folder.old) (Ends (asked (map string_bytes words.now)) end (O.told out.old) (O.told out.new))) }
    ensures done { result ≡ 0 → IfSome (F.told folder.old) (λ files. Wrote (IsAnswer (asked (map string_bytes words.now)) files) (O.told out.old) (O.told out.new)) }
    ensures not_built { result ≡ 1 → IfSome (F.told folder.old) (λ files. IsNotBuilt (asked (map string_bytes words.now)) files) }
    ensures read_fault { result ≡ 6 → Rose (F.read_count folder.old) (F.read_count folder.new) }
    ensures write_fault { result ≡ 7 → Rose (O.count out.old) (O.count out.new) }
    ensures part { result ≡ 7 → IfSome (F.told folder.old) (λ files. WrotePart (IsAnswer (asked (map string_bytes words.now)) files) (O.told out.old) (O.told out.new)) }
    ensures silent { WritesNothing result → out.new ≡ out.old }
    ensures kept { Stays (F.told folder.old) (F.told folder.new) }
    ensures writes { F.write_count folder.new ≡ F.write_count folder.old }
{
    let status = run(alloc, words, folder, out);
    note(&status, notes);
    status.code()
}
