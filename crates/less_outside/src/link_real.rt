// A link over a reader and a writer of std, as the two halves of a stream. It tells what they tell.
ghost use Rattle.std.specs.Prelude.{◌≡◌};

use crate::{Link, OutsideFault};
use std::io::{Read, Write};

#[derive(Drop)]
pub struct LinkReal<R: Read + Drop, W: Write + Drop> {
    pub reader: R,
    pub writer: W,
    read_faults: u64,
    write_faults: u64,
}

impl<R: Read + Drop, W: Write + Drop> LinkReal<R, W> {
    ghost use Rattle.less_outside.specs.LinkReal.{IsNewLinkReal};

    /// A link that reads from `reader` and writes to `writer`. Of one stream, `try_clone` makes the two.
    pub fn new(reader: R, writer: W) -> Self
        ensures { IsNewLinkReal result reader writer }
    {
        LinkReal {
            reader,
            writer,
            read_faults: 0,
            write_faults: 0,
        }
    }
}

impl<R: Read + Drop, W: Write + Drop> Link for LinkReal<R, W> {
    ghost left = { λ l. R.remaining l.reader };

    ghost sent = { λ l. W.contents l.writer };

    ghost read_count = { λ l. l.read_faults };

    ghost write_count = { λ l. l.write_faults };

    fn read(&mut self, room: &mut [u8]) -> Result<usize, OutsideFault> {
        match self.reader.read(room) {
            Ok(count) => Ok(count),
            Err(_) => {
                self.read_faults = self.read_faults.saturating_add(1);
                Err(OutsideFault::Failed)
            }
        }
    }

    // Not `write_all`, which says nothing of what was taken where it fails.
    fn write(&mut self, bytes: &[u8]) -> Result<(), OutsideFault> {
        let mut rest = bytes;
        while !rest.is_empty() {
            match self.writer.write(rest) {
                Ok(0) | Err(_) => {
                    self.write_faults = self.write_faults.saturating_add(1);
                    return Err(OutsideFault::Failed);
                }
                Ok(taken) => rest = rest.split_at(taken).1,
            }
        }
        Ok(())
    }

    fn read_faults(&self) -> u64 {
        self.read_faults
    }

    fn write_faults(&self) -> u64 {
        self.write_faults
    }
}
