//! What each step on the table tells.
ghost use Rattle.turn_store.specs.Plays.{took, fetched, gave, known, pinned, joined, ruling};
ghost use Rattle.turn_store.specs.Rule.{newcomer};

use crate::view::View;
use atomic_table::{Join, Play, Split};

pub(crate) struct TakeTurn;

impl<V> Play<Option<V>, View<V>> for TakeTurn {
    ghost then = { took };
}

pub(crate) struct Fetch;

impl<V> Play<Option<V>, View<V>> for Fetch {
    ghost then = { fetched };
}

pub(crate) struct Release;

impl<V> Play<Option<V>, View<V>> for Release {
    ghost then = { gave };
}

pub(crate) struct Know;

impl<V> Play<Option<V>, View<V>> for Know {
    ghost then = { known };
}

pub(crate) struct Pin;

impl<V> Play<Option<V>, View<V>> for Pin {
    ghost then = { pinned };
}

/// A new pass, with no items.
pub(crate) struct Another;

impl<V> Split<View<V>> for Another {
    ghost left = { λ d. d };

    ghost right = { λ d. newcomer };
}

/// All items in one pass.
pub(crate) struct Together;

impl<V> Join<View<V>> for Together {
    ghost both = { joined };

    ghost spent = { newcomer };
}

/// The administrator's changes too.
pub(crate) struct Ruling;

impl<V> Join<View<V>> for Ruling {
    ghost both = { ruling };

    ghost spent = { newcomer };
}
