// What is written to standard output.
ghost use Rattle.std.specs.Prelude.{◌≡◌};
ghost use Rattle.std.specs.Io.KnownBytes.{Appends};
ghost use Rattle.less_terms.specs.Causes.{Rose};
ghost use Rattle.less_outside.specs.Sink.{AppendsFront};
ghost use Rattle.less_cmd.specs.Status.{IsLoud};

use crate::status::Status;
use less_outside::Sink;

/// Writes the answer of a command, where there was memory to make it.
pub fn write_answer<O: Sink>(text: &[u8], out: &mut O) -> Status
    ensures done { result ≡ Status.Done → Appends (O.told out.old) (O.told out.new) text.now }
    ensures part { result ≡ Status.WriteFault → AppendsFront (O.told out.old) (O.told out.new) text.now }
    ensures cause { result ≡ Status.WriteFault → Rose (O.count out.old) (O.count out.new) }
    ensures ends { IsLoud result }
{
    match out.write(text) {
        Ok(()) => Status::Done,
        Err(_) => Status::WriteFault,
    }
}
