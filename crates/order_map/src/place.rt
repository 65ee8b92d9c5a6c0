// Places of pairs.

ghost use Rattle.std.specs.Prelude.{◌≡◌};

/// Where a pair of an array stands. It serves as long as the array does not change.
#[derive(Clone, Copy, Debug, PartialEq, Eq)]
pub struct Place {
    at: usize,
}

impl Place {
    pub(crate) fn new(at: usize) -> Place
        ensures { result.at ≡ at }
    {
        Place { at }
    }

    pub(crate) fn at(self) -> usize
        ensures { result ≡ self.at }
    {
        self.at
    }
}
