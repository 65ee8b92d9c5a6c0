//! A file of tokens.

ghost use Rattle.std.specs.Prelude.{IfOk, IfErr};
ghost use Rattle.php_reading.specs.File.{IsFileRead, IsFileFault};

use crate::pieces::Pieces;
use crate::reader::Reader;
use backward_list::Backward;
use php_grammar::part::Part;
use php_grammar::token::Fault;
use php_reading::{FileFault, Stop};
use std::alloc::Global;

/// A token stands in at most 200 nodes.
const BUDGET: usize = 201;

/// Reads all tokens as a file, and puts its tree on the stack. It errs exactly where they have no tree (`Memory` may come at
/// any time), and tells how many tokens stand before the first that is bad or too deep.
pub fn read_file<P: Pieces + Drop>(alloc: Global, pieces: P) -> Result<P, FileFault>
    ensures ok { IfOk result (λ read. IsFileRead (P.left pieces) (P.values pieces) (P.values read)) }
    ensures err { IfErr result (λ fault. IsFileFault (P.left pieces) fault) }
{
    let all = pieces.count();
    let mut reader = Reader {
        pieces,
        waiting: Backward::new(alloc),
    };
    match reader.read(Part::File, BUDGET) {
        Ok(_) => {
            let Reader { pieces, .. } = reader;
            if pieces.is_at_end() {
                return Ok(pieces);
            }
            Err(FileFault::At {
                place: all - pieces.count(),
                fault: Fault::Bad,
            })
        }
        Err(Stop::At(fault)) => Err(FileFault::At {
            place: all - reader.pieces.count(),
            fault,
        }),
        Err(Stop::Memory) => Err(FileFault::Memory),
    }
}
