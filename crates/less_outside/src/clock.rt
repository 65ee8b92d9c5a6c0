// A clock. It may fail, and counts how often it did.
ghost use Rattle.std.specs.Prelude.{◌≡◌, ◌≤◌, ℕ, Option, IfOk, IfSome};
ghost use Rattle.less_terms.specs.Causes.{HasCause};
ghost use Rattle.less_outside.specs.Told.{Stays};

use crate::OutsideFault;

/// The greatest moment, in seconds since 1970.
pub const MAX_MOMENT: u64 = 9_999_999_999;

pub trait Clock {
    /// The moment that the calls give, in seconds since 1970, or none where the clock does not tell.
    ghost told: { Self → Option ℕ };

    /// How often a call has failed. It stands still at the end of its type.
    ghost count: { Self → ℕ };

    /// The moment, in seconds since 1970.
    fn now(&mut self) -> Result<u64, OutsideFault>
        ensures moment { IfOk result (λ moment. IfSome (told self.old) (λ known. moment ≡ known)) }
        ensures within { IfOk result (λ moment. moment ≤ MAX_MOMENT) }
        ensures kept { Stays (told self.old) (told self.new) }
        ensures cause { HasCause (count self.old) (count self.new) result };

    /// The count of faults.
    fn faults(&self) -> u64
        ensures { result ≡ count self.now };
}
