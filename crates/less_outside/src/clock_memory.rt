// A clock in memory, which stands still and fails at the calls of a list.
ghost use Rattle.std.specs.Prelude.{◌≡◌, ◌≤◌, Some, IfOk, is_err};
ghost use Rattle.less_terms.specs.Causes.{HasCause};
ghost use Rattle.less_outside.specs.Clock.{ClockState, new_clock, fails_next, after_now};

use crate::{Clock, MAX_MOMENT, OutsideFault};
use std::marker::Model;

/// Contracts see it as its moment, the calls that fail, and its counts of calls and faults.
#[derive(Debug, Drop)]
pub struct ClockMem {
    moment: u64,
    failing: Vec<u64>,
    calls: u64,
    faults: u64,
}

impl Model for ClockMem {
    ghost use Rattle.std.specs.Prelude.{◌≤◌};
    ghost use Rattle.less_outside.specs.declared.clock.TheConstants.{MAX_MOMENT};
    ghost use Rattle.less_outside.specs.Clock.{ClockState};

    ghost Value = { ClockState };

    ghost view = { λ c. record { moment = c.moment; failing = c.failing.items; calls = c.calls; faults = c.faults } };

    ghost invariant = { λ c. c.moment ≤ MAX_MOMENT };
}

impl ClockMem {
    /// A clock that always gives this moment, in seconds since 1970. It fails at the calls that `failing` lists, counted
    /// from 0.
    pub fn new(moment: u64, failing: Vec<u64>) -> Self
        requires { moment ≤ MAX_MOMENT }
        ensures { result ≡ new_clock moment failing.items }
    {
        ClockMem {
            moment,
            failing,
            calls: 0,
            faults: 0,
        }
    }
}

impl Clock for ClockMem {
    ghost told = { λ c. Some c.moment };

    ghost count = { λ c. c.faults };

    fn now(&mut self) -> Result<u64, OutsideFault>
        ensures refused { is_err result ≡ fails_next self.old }
        ensures moment { IfOk result (λ moment. moment ≡ self.old.moment) }
        ensures after { self.new ≡ after_now self.old }
        ensures within { IfOk result (λ moment. moment ≤ MAX_MOMENT) }
        ensures cause { HasCause self.old.faults self.new.faults result }
    {
        let fails = self.failing.contains(&self.calls);
        self.calls = self.calls.saturating_add(1);
        if fails {
            self.faults = self.faults.saturating_add(1);
            return Err(OutsideFault::Failed);
        }
        Ok(self.moment)
    }

    fn faults(&self) -> u64 {
        self.faults
    }
}
