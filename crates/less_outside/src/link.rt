// A connection: bytes are read from it and written to it. It may fail, and counts how often it did.
ghost use Rattle.std.specs.Prelude.{◌≡◌, ◌≤◌, List, ℕ, Option, OnOk, OnErr, IfOk, length, take};
ghost use Rattle.std.specs.Io.KnownBytes.{Appends, Consumes};
ghost use Rattle.less_terms.specs.Causes.{HasCause};
ghost use Rattle.less_outside.specs.Link.{EndsExactly};
ghost use Rattle.less_outside.specs.Sink.{AppendsFront};
ghost use Rattle.less_outside.specs.Told.{Stays};

use crate::OutsideFault;

pub trait Link {
    /// The bytes that are left to read, or none where the link does not tell.
    ghost left: { Self → Option (List ℕ) };

    /// The bytes that were written, or none where the link does not tell.
    ghost sent: { Self → Option (List ℕ) };

    /// How often a read has failed. It stands still at the end of its type.
    ghost read_count: { Self → ℕ };

    /// How often a write has failed. It stands still at the end of its type.
    ghost write_count: { Self → ℕ };

    /// Puts bytes at the front of the room and answers how many: at least one where the room is not empty, or 0 at the end.
    fn read(&mut self, room: &mut [u8]) -> Result<usize, OutsideFault>
        ensures within { IfOk result (λ count. count ≤ length room.old) }
        ensures taken { IfOk result (λ count. Consumes (left self.old) (left self.new) (take count room.new)) }
        ensures end { IfOk result (EndsExactly (left self.old) (length room.old)) }
        ensures not_taken { OnErr result (Stays (left self.old) (left self.new)) }
        ensures sent { Stays (sent self.old) (sent self.new) }
        ensures cause { HasCause (read_count self.old) (read_count self.new) result }
        ensures writes { write_count self.new ≡ write_count self.old };

    /// Takes all bytes, or a front part of them and fails.
    fn write(&mut self, bytes: &[u8]) -> Result<(), OutsideFault>
        ensures written { OnOk result (Appends (sent self.old) (sent self.new) bytes.now) }
        ensures front { OnErr result (AppendsFront (sent self.old) (sent self.new) bytes.now) }
        ensures left { Stays (left self.old) (left self.new) }
        ensures cause { HasCause (write_count self.old) (write_count self.new) result }
        ensures reads { read_count self.new ≡ read_count self.old };

    /// The count of faults of reads.
    fn read_faults(&self) -> u64
        ensures { result ≡ read_count self.now };

    /// The count of faults of writes.
    fn write_faults(&self) -> u64
        ensures { result ≡ write_count self.now };
}
