// What a run leaves in its slot.

ghost use Rattle.std.specs.Prelude.{◌≡◌};
ghost use Rattle.session_book.specs.Slots as spec;

use crate::id::SessionId;
use crate::size::size_of_session;
use crate::slot::{Session, SlotValue, live_session};
use crate::value::SessionValue;

/// The greatest size of a value that is kept.
const MAX_SESSION: u64 = 65_536;

/// What a run did with its session: it started none, it set its value, or it ended it.
#[derive(Debug, Drop)]
pub enum SessionState {
    Untouched,
    Set(SessionValue),
    Ended,
}

// Whether a value is kept.
fn fits(value: &SessionValue) -> bool
    ensures { result ≡ spec.fits value.now }
{
    size_of_session(value) <= MAX_SESSION
}

/// The id of a run in a slot: that of the session that is live there, or else with the drawn number. It takes no memory.
pub fn run_id(slot: u8, before: &SlotValue, moment: u64, drawn: u128) -> SessionId
    ensures { result ≡ spec.run_id slot (spec.live before.now moment) drawn }
{
    let draw = match live_session(before, moment) {
        Some(session) => session.draw,
        None => drawn,
    };
    SessionId { slot, draw }
}

// The change number of a session that goes on, or of a new one.
fn born(before: &SlotValue, moment: u64, change: u32) -> u32
    ensures { result ≡ spec.born_of (spec.live before.now moment) change }
{
    match live_session(before, moment) {
        Some(session) => session.born,
        None => change,
    }
}

/// The id that a run tells by a cookie: where it holds a session and none was live in its slot before. It takes no memory.
pub fn cookie_after(
    slot: u8,
    before: &SlotValue,
    state: &SessionState,
    moment: u64,
    drawn: u128,
) -> Option<SessionId>
    ensures { result ≡ spec.cookie_after slot before.now state.now moment drawn }
{
    let SessionState::Set(value) = state else {
        return None;
    };
    if !fits(value) || live_session(before, moment).is_some() {
        return None;
    }
    Some(run_id(slot, before, moment, drawn))
}

/// What a slot holds after a run: `moment` is the run's in seconds, `drawn` the number drawn for it, and `change` the
/// change number of the slot's role when the run took it. It takes no memory.
pub fn slot_after(
    before: SlotValue,
    state: SessionState,
    moment: u64,
    drawn: u128,
    change: u32,
) -> SlotValue
    ensures { result ≡ spec.slot_after before state moment drawn change }
{
    match state {
        SessionState::Untouched => before,
        SessionState::Ended => SlotValue::Free,
        SessionState::Set(value) => {
            if !fits(&value) {
                return before;
            }
            let draw = run_id(0, &before, moment, drawn).draw;
            let born = born(&before, moment, change);
            SlotValue::Held(Session {
                draw,
                last: moment,
                born,
                value,
            })
        }
    }
}
