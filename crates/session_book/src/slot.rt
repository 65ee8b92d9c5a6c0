// Slots of sessions.

ghost use Rattle.std.specs.Prelude.{◌≡◌, is_some};
ghost use Rattle.std.specs.Option.{option_copied};
ghost use Rattle.session_book.specs.Slots as spec;

use crate::value::SessionValue;

/// How long a session lives after its last request, in seconds.
const LIFETIME: u64 = 1440;

/// A session: the number drawn for it, the moment of its last request in seconds, how often its slot's role had been
/// changed when it began, and its value.
#[derive(Debug, Drop)]
pub struct Session {
    pub draw: u128,
    pub last: u64,
    pub born: u32,
    pub value: SessionValue,
}

/// What a slot holds. A session that has expired stays in its slot until another takes its place.
#[derive(Debug, Drop)]
pub enum SlotValue {
    Free,
    Held(Session),
}

/// The session that is live in a slot at a moment: up to and at 1440 seconds after its last request. It takes no memory.
pub fn live_session(value: &SlotValue, moment: u64) -> Option<&Session>
    ensures { option_copied result ≡ spec.live value.now moment }
{
    match value {
        SlotValue::Free => None,
        SlotValue::Held(session) => {
            if moment.saturating_sub(session.last) <= LIFETIME {
                Some(session)
            } else {
                None
            }
        }
    }
}

/// Whether a session is live in a slot at a moment. It takes no memory.
pub fn is_live(value: &SlotValue, moment: u64) -> bool
    ensures { result ≡ is_some (spec.live value.now moment) }
{
    live_session(value, moment).is_some()
}
