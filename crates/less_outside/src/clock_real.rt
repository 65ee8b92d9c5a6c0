// The system's clock. It tells nothing.
ghost use Rattle.std.specs.Prelude.{◌≡◌, ◌≤◌, None, IfOk, is_err};
ghost use Rattle.less_terms.specs.Causes.{HasCause};
ghost use Rattle.less_outside.specs.Told.{next_on};

use crate::{Clock, MAX_MOMENT, OutsideFault};
use std::rt;

#[derive(Drop)]
pub struct ClockReal<R: rt::Clock + Drop> {
    rt: R,
    faults: u64,
}

impl<R: rt::Clock + Drop> ClockReal<R> {
    ghost use Rattle.less_outside.specs.ClockReal.{IsNewClockReal};

    /// The clock of this runtime.
    pub fn new(rt: R) -> Self
        ensures { IsNewClockReal result rt }
    {
        ClockReal { rt, faults: 0 }
    }
}

impl<R: rt::Clock + Drop> Clock for ClockReal<R> {
    ghost use Rattle.less_outside.specs.ClockReal.{faults_of};

    ghost told = { λ _. None };

    ghost count = { λ c. c.faults };

    /// A moment above the greatest is a fault.
    fn now(&mut self) -> Result<u64, OutsideFault>
        ensures within { IfOk result (λ moment. moment ≤ MAX_MOMENT) }
        ensures counted { faults_of self.new ≡ next_on (is_err result) (faults_of self.old) }
        ensures cause { HasCause (faults_of self.old) (faults_of self.new) result }
    {
        match self.rt.since_1970() {
            Ok(since) if since.as_secs() <= MAX_MOMENT => Ok(since.as_secs()),
            _ => {
                self.faults = self.faults.saturating_add(1);
                Err(OutsideFault::Failed)
            }
        }
    }

    fn faults(&self) -> u64 {
        self.faults
    }
}
