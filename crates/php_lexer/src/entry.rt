//! The tokens of a text, and the line of a place.

ghost use Rattle.std.specs.Prelude.{◌≡◌, ◌≢◌, ◌≤◌, ◌<◌, ◌+◌, ◌^◌, List, length, IfOk, IfErr};
ghost use Rattle.less_terms.specs.Lines.{line_at};
ghost use Rattle.php_lexer.specs.Marks.{Mark};
ghost use Rattle.php_lexer.specs.Tokens.{IsTokens, IsFaultOf};
ghost use Rattle.php_lexer.specs.declared.fault.LexFault.TheVariants.{Memory};

use crate::fault::LexFault;
use crate::scan::read;
use crate::state::{Around, Cursor, State};
use crate::token::Tokens;
use less_terms::count_newlines;
use std::alloc::Global;

/// The tokens of a text of at most 1,048,576 bytes. It takes time in proportion to the text, and memory for the tokens and
/// for the bytes that quoted texts stand for.
pub fn lex(alloc: Global, text: &[u8]) -> Result<Tokens<'_>, LexFault>
    requires { length text.now ≤ 1048576 }
    ensures tokens { IfOk result (IsTokens text.now) }
    ensures fault { IfErr result (IsFaultOf text.now) }
    ensures no_tokens { IfErr result (λ e. e ≢ Memory → (ts : List Mark) → ¬ IsTokens text.now ts) }
{
    let mut tokens = Tokens::new(alloc);
    let start = State {
        cursor: Cursor::start(text),
        is_outside: true,
        depth: 0,
    };
    let around = Around { nest: 0, quote: 0 };
    read(alloc, &mut tokens, start, around)?;
    Ok(tokens)
}

/// The line of a place in bytes from 0; lines count from 1. Only byte 10 ends a line. A place past the end is on the last line.
pub fn line_of(text: &[u8], place: usize) -> u32
    requires { length text.now < 4294967295 }
    ensures { result ≡ line_at text.now place }
{
    let front = if place < text.len() {
        text.split_at(place).0
    } else {
        text
    };
    count_newlines(front) as u32 + 1
}
