// A source of numbers for new ids. It may fail, and counts how often it did.
ghost use Rattle.std.specs.Prelude.{◌≡◌, ℕ, Option, OnOk, OnErr, IfOk, IfSome};
ghost use Rattle.less_terms.specs.Causes.{HasCause};
ghost use Rattle.less_outside.specs.Ids.{IsLaterDraw};
ghost use Rattle.less_outside.specs.Told.{Changes, Stays};

use crate::OutsideFault;

pub trait Ids {
    /// The next draw, or none where the source does not tell.
    ghost told: { Self → Option ℕ };

    /// How often a call has failed. It stands still at the end of its type.
    ghost count: { Self → ℕ };

    /// A number for a new id.
    fn draw(&mut self) -> Result<u128, OutsideFault>
        ensures given { IfOk result (λ draw. IfSome (told self.old) (λ next. draw ≡ next)) }
        ensures later { OnOk result (Changes (told self.old) (told self.new) IsLaterDraw) }
        ensures kept { OnErr result (Stays (told self.old) (told self.new)) }
        ensures cause { HasCause (count self.old) (count self.new) result };

    /// The count of faults.
    fn faults(&self) -> u64
        ensures { result ≡ count self.now };
}
