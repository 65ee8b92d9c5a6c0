//! Why tokens are no file.

use php_grammar::token::Fault;

/// Why tokens are no file: the number of tokens before the first that is bad or too deep, or want of memory.
#[derive(Clone, Copy)]
pub enum FileFault {
    At { place: usize, fault: Fault },
    Memory,
}
