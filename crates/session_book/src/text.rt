// Texts that are sought in a session's value.

ghost use Rattle.std.specs.Prelude.{◌≡◌, ◌+◌, ◌<◌, ◌≤◌, ◌^◌, option_map, Some};
ghost use Rattle.order_map.specs.Keys.{same_key};
ghost use Rattle.order_map.specs.declared.key.Key.TheVariants.{Text};
ghost use Rattle.session_book.specs.Kept as spec;
ghost use Rattle.session_book.specs.Marks.{key_data, scalar_data};
ghost use Rattle.session_book.specs.Steps.{TurnIs, GoesWithin};

use crate::mark::{Mark, Scalar, SessionKey};
use crate::value::SessionValue;

impl SessionKey {
    fn is_text(&self, text: &[u8]) -> bool
        ensures { result ≡ same_key (key_data self.now) (Text text.now) }
    {
        match self {
            SessionKey::Int(_) => false,
            SessionKey::Text(own) => own.as_slice() == text,
        }
    }
}

impl Scalar {
    fn as_text(&self) -> Option<&[u8]>
        ensures { option_map (λ t. t.now) result ≡ spec.text_in (Some (scalar_data self.now)) }
    {
        match self {
            Scalar::Text(text) => Some(text.as_slice()),
            Scalar::Null | Scalar::Bool(_) | Scalar::Int(_) => None,
        }
    }
}

// What a mark tells of a text that is sought: what it is, or how deep in lists the search stands behind the mark.
#[derive(Clone, Copy)]
pub(crate) enum Turn<'a> {
    Ends(Option<&'a [u8]>),
    Goes(usize),
}

fn pass<'a>(mark: &'a Mark, key: &[u8], depth: usize) -> Turn<'a>
    requires { depth + 1 < 2 ^ 64 }
    ensures value { TurnIs key.now depth mark.now result }
    ensures within { GoesWithin (depth + 1) result }
{
    match mark {
        Mark::Pair(own, scalar) => {
            if depth == 0 && own.is_text(key) {
                return Turn::Ends(scalar.as_text());
            }
            Turn::Goes(depth)
        }
        Mark::Open(own, _) => {
            if depth == 0 && own.is_text(key) {
                return Turn::Ends(None);
            }
            Turn::Goes(depth + 1)
        }
        Mark::Close => {
            if depth == 0 {
                return Turn::Ends(None);
            }
            Turn::Goes(depth - 1)
        }
    }
}

impl SessionValue {
    /// The text at a text key, if one stands there. It takes no memory.
    pub fn text_at(&self, key: &[u8]) -> Option<&[u8]>
        ensures { option_map (λ t. t.now) result ≡ spec.text_at key.now self.now }
    {
        let mut depth = 0;
        for mark in self.marks.as_slice() {
            match pass(mark, key, depth) {
                Turn::Ends(text) => return text,
                Turn::Goes(next) => depth = next,
            }
        }
        None
    }
}
