//! What a token is to the grammar where it depends on the tokens before it: braces in embedded expressions.

ghost use Rattle.std.specs.Prelude.{◌≡◌, [], OnOk, IfOk};
ghost use Rattle.php_lexemes.specs.Lexemes as spec;

use crate::signs::sign_sort;
use backward_list::Backward;
use php_grammar::token::{Detail, Kind};
use php_lexer::{Part, Sign};
use std::alloc::{AllocError, Global};
use std::marker::Model;

/// A text whose embedded expression is open.
#[derive(Clone, Copy, Drop)]
pub(crate) struct Open {
    /// How many of its expressions come after this one.
    pub left: usize,
    /// How many braces are open in the expression.
    pub braces: usize,
}

/// The texts whose embedded expressions are open, the innermost first.
#[derive(Drop)]
pub(crate) struct Around {
    list: Backward<Open>,
}

impl Model for Around {
    ghost use Rattle.std.specs.Prelude.{List, map};
    ghost use Rattle.php_lexemes.specs.Lexemes as spec;
    ghost use Rattle.php_lexemes.specs.Opens.{open_of};

    ghost Value = { List spec.Open };

    ghost view = { λ around. map open_of around.list };
}

impl Around {
    pub(crate) fn new(alloc: Global) -> Around
        ensures { result ≡ [] }
    {
        Around {
            list: Backward::new(alloc),
        }
    }

    /// What a sign is, and what is open after it.
    pub(crate) fn sign(&mut self, sign: Sign) -> Result<(Kind, Detail), AllocError>
        ensures sort { IfOk result (λ sort. sort ≡ spec.sign_in self.old sign) }
        ensures after { OnOk result (self.new ≡ spec.sign_opened self.old sign) }
    {
        match sign {
            Sign::BraceOpen => {
                self.open_brace()?;
                Ok(sign_sort(sign))
            }
            Sign::BraceClose => self.close_brace(),
            _ => Ok(sign_sort(sign)),
        }
    }

    fn open_brace(&mut self) -> Result<(), AllocError>
        ensures { OnOk result (self.new ≡ spec.brace_opened self.old) }
    {
        if let Some(open) = self.list.pop() {
            let Some(braces) = open.braces.checked_add(1) else {
                return Err(AllocError);
            };
            self.list.push(Open {
                left: open.left,
                braces,
            })?;
        }
        Ok(())
    }

    fn close_brace(&mut self) -> Result<(Kind, Detail), AllocError>
        ensures sort { IfOk result (λ sort. sort ≡ spec.closing self.old) }
        ensures after { OnOk result (self.new ≡ spec.brace_closed self.old) }
    {
        let Some(open) = self.list.pop() else {
            return Ok((Kind::BraceClose, Detail::Only));
        };
        if open.braces > 0 {
            self.list.push(Open {
                left: open.left,
                braces: open.braces - 1,
            })?;
            return Ok((Kind::BraceClose, Detail::Only));
        }
        if open.left == 0 {
            return Ok((Kind::QuoteClose, Detail::Only));
        }
        self.list.push(Open {
            left: open.left - 1,
            braces: 0,
        })?;
        Ok((Kind::QuoteNext, Detail::Only))
    }

    /// Opens the first of the expressions of a text.
    pub(crate) fn quote(&mut self, parts: &[Part]) -> Result<Kind, AllocError>
        ensures kind { IfOk result (λ kind. kind ≡ (spec.quote_sort parts.now).0) }
        ensures after { OnOk result (self.new ≡ spec.opened self.old parts.now) }
    {
        let embedded = embedded(parts);
        if embedded == 0 {
            return Ok(Kind::Quote);
        }
        self.list.push(Open {
            left: embedded - 1,
            braces: 0,
        })?;
        Ok(Kind::QuoteOpen)
    }
}

/// How many expressions the parts embed.
fn embedded(parts: &[Part]) -> usize
    ensures { result ≡ spec.embedded parts.now }
{
    parts
        .iter()
        .filter(|part| matches!(part, Part::Embedded))
        .count()
}
