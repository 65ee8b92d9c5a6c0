// Ids in memory: 1, 2, .., failing at the calls of a list.
ghost use Rattle.std.specs.Prelude.{◌≡◌, Some, OnOk, IfOk, is_err};
ghost use Rattle.less_terms.specs.Causes.{HasCause};
ghost use Rattle.less_outside.specs.Ids.{IdsState, IsLaterDraw, new_ids, fails_next, after_draw};

use crate::{Ids, OutsideFault};
use std::marker::Model;

/// Contracts see them as the next draw, the calls that fail, and their counts of calls and faults.
#[derive(Debug, Drop)]
pub struct IdsMem {
    next: u128,
    failing: Vec<u64>,
    calls: u64,
    faults: u64,
}

impl Model for IdsMem {
    ghost use Rattle.less_outside.specs.Ids.{IdsState};

    ghost Value = { IdsState };

    ghost view = { λ i. record { draw = i.next; failing = i.failing.items; calls = i.calls; faults = i.faults } };
}

impl IdsMem {
    /// The draws 1, 2, .. A call fails where `failing` lists its number, counted from 0.
    pub fn new(failing: Vec<u64>) -> Self
        ensures { result ≡ new_ids failing.items }
    {
        IdsMem {
            next: 1,
            failing,
            calls: 0,
            faults: 0,
        }
    }
}

impl Ids for IdsMem {
    ghost told = { λ i. Some i.draw };

    ghost count = { λ i. i.faults };

    /// A call that fails gives no number away.
    fn draw(&mut self) -> Result<u128, OutsideFault>
        ensures refused { is_err result ≡ fails_next self.old }
        ensures given { IfOk result (λ draw. draw ≡ self.old.draw) }
        ensures after { self.new ≡ after_draw self.old }
        ensures later { OnOk result (IsLaterDraw self.old.draw self.new.draw) }
        ensures cause { HasCause self.old.faults self.new.faults result }
    {
        let fails = self.failing.contains(&self.calls);
        self.calls = self.calls.saturating_add(1);
        if fails {
            self.faults = self.faults.saturating_add(1);
            return Err(OutsideFault::Failed);
        }
        let draw = self.next;
        self.next = draw.saturating_add(1);
        Ok(draw)
    }

    fn faults(&self) -> u64 {
        self.faults
    }
}
