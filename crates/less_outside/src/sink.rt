// A place that bytes are written to. It may fail, and counts how often it did.
ghost use Rattle.std.specs.Prelude.{◌≡◌, List, ℕ, Option, OnOk, OnErr};
ghost use Rattle.std.specs.Io.KnownBytes.{Appends};
ghost use Rattle.less_terms.specs.Causes.{HasCause};
ghost use Rattle.less_outside.specs.Sink.{AppendsFront};

use crate::OutsideFault;

pub trait Sink {
    /// The bytes that were taken so far, or none where the sink does not tell.
    ghost told: { Self → Option (List ℕ) };

    /// How often a write has failed. It stands still at the end of its type.
    ghost count: { Self → ℕ };

    /// Takes all bytes, or a front part of them and fails.
    fn write(&mut self, bytes: &[u8]) -> Result<(), OutsideFault>
        ensures written { OnOk result (Appends (told self.old) (told self.new) bytes.now) }
        ensures front { OnErr result (AppendsFront (told self.old) (told self.new) bytes.now) }
        ensures cause { HasCause (count self.old) (count self.new) result };

    /// The count of faults.
    fn faults(&self) -> u64
        ensures { result ≡ count self.now };
}
