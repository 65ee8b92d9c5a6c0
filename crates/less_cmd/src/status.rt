// How the program ends.
ghost use Rattle.std.specs.Prelude.{◌≡◌, OnOk, OnErr};
ghost use Rattle.std.specs.Io.KnownBytes.{Appends};
ghost use Rattle.less_terms.specs.Causes.{HasCause};
ghost use Rattle.less_outside.specs.Sink.{AppendsFront};
ghost use Rattle.less_cmd.specs.Status.{code_of, note_of};

use less_outside::{OutsideFault, Sink};

/// How a command ended.
#[derive(Debug, Drop)]
pub enum Status {
    Done,
    /// Words, script or copy are of no form that is built.
    NotBuilt,
    /// The note of an application that is refused.
    AppRefused(Vec<u8>),
    ReadFault,
    WriteFault,
    /// The note of a copy that is refused.
    CopyRefused(Vec<u8>),
    Memory,
}

impl Status {
    /// The exit status of the program.
    pub fn code(&self) -> u8
        ensures { result ≡ code_of self.now }
    {
        match self {
            Status::Done => 0,
            Status::NotBuilt => 1,
            Status::AppRefused(_) => 3,
            Status::ReadFault => 6,
            Status::WriteFault => 7,
            Status::CopyRefused(_) => 10,
            Status::Memory => 12,
        }
    }

    fn note(&self) -> &[u8]
        ensures { result.now ≡ note_of self.now }
    {
        match self {
            Status::Done => b"",
            Status::NotBuilt => b"less: not built\n",
            Status::AppRefused(note) | Status::CopyRefused(note) => note.as_slice(),
            Status::ReadFault => b"less: read fault\n",
            Status::WriteFault => b"less: write fault\n",
            Status::Memory => b"less: memory\n",
        }
    }

    /// Writes the status's line to standard error, or nothing where it is `Done`. It takes no memory.
    pub fn write_note<N: Sink>(&self, notes: &mut N) -> Result<(), OutsideFault>
        ensures line { OnOk result (Appends (N.told notes.old) (N.told notes.new) (note_of self.now)) }
        ensures front { OnErr result (AppendsFront (N.told notes.old) (N.told notes.new) (note_of self.now)) }
        ensures cause { HasCause (N.count notes.old) (N.count notes.new) result }
    {
        notes.write(self.note())?;
        Ok(())
    }
}
