// Where the reading of a head ends.
ghost use Rattle.std.specs.Prelude.{◌≡◌};
ghost use Rattle.request_map.specs.Scans.{scan_after, is_ended};

/// Where a byte stands that may belong to a head.
#[derive(Clone, Copy, Debug, PartialEq, Eq)]
pub enum Scan {
    /// Among the empty lines in front of a head.
    Blank,
    /// In a line that is not empty.
    Line,
    /// At the beginning of a line.
    Fresh,
    /// Behind a CR at the beginning of a line.
    Return,
    /// Behind an empty line: the head ends here, if it is one.
    Ended,
}

impl Scan {
    /// Where a byte leads.
    pub fn after(self, byte: u8) -> Scan
        ensures { result ≡ scan_after self byte }
    {
        match (self, byte) {
            (Scan::Blank, b'\r' | b'\n') => Scan::Blank,
            (Scan::Line, b'\n') => Scan::Fresh,
            (Scan::Fresh, b'\n') => Scan::Ended,
            (Scan::Fresh, b'\r') => Scan::Return,
            (Scan::Return, b'\n') => Scan::Ended,
            (Scan::Ended, _) => Scan::Ended,
            _ => Scan::Line,
        }
    }

    pub fn is_ended(self) -> bool
        ensures { result ≡ is_ended self }
    {
        match self {
            Scan::Ended => true,
            _ => false,
        }
    }
}
