// A sink over any writer of std. It tells what the writer tells: a file or a stream tells nothing.
ghost use Rattle.std.specs.Prelude.{◌≡◌};

use crate::{OutsideFault, Sink};
use std::io::Write;

#[derive(Drop)]
pub struct SinkReal<W: Write + Drop> {
    pub writer: W,
    faults: u64,
}

impl<W: Write + Drop> SinkReal<W> {
    ghost use Rattle.less_outside.specs.SinkReal.{IsNewSinkReal};

    /// A sink that writes to `writer`. None of its writes has failed yet.
    pub fn new(writer: W) -> Self
        ensures { IsNewSinkReal result writer }
    {
        SinkReal { writer, faults: 0 }
    }
}

impl<W: Write + Drop> Sink for SinkReal<W> {
    ghost told = { λ s. W.contents s.writer };

    ghost count = { λ s. s.faults };

    // Not `write_all`, which says nothing of what was taken where it fails.
    fn write(&mut self, bytes: &[u8]) -> Result<(), OutsideFault> {
        let mut rest = bytes;
        while !rest.is_empty() {
            match self.writer.write(rest) {
                Ok(0) | Err(_) => {
                    self.faults = self.faults.saturating_add(1);
                    return Err(OutsideFault::Failed);
                }
                Ok(taken) => rest = rest.split_at(taken).1,
            }
        }
        Ok(())
    }

    fn faults(&self) -> u64 {
        self.faults
    }
}
