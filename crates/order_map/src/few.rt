// So few bytes that they need no memory of their own.

ghost use Rattle.std.specs.Prelude.{◌≤◌};

// So many bytes stand in a text itself.
pub(crate) const FEW: usize = 14;

// At most so many bytes.
#[derive(Clone, Copy, Debug)]
pub(crate) struct Few {
    len: u8,
    bytes: [u8; FEW],
    ghost within: { len ≤ 14 },
}

impl Few {
    ghost use Rattle.std.specs.Prelude.{◌≡◌, ◌<◌, ◌+◌, ◌++◌, length, MatchOption};
    ghost use Rattle.order_map.specs.Texts.{few_bytes};
    ghost use Rattle.order_map.specs.declared.few.TheConstants.{FEW};

    // These bytes, where they are few.
    pub(crate) fn from_slice(bytes: &[u8]) -> Option<Few>
        ensures { MatchOption result (FEW < length bytes.now) (λ few. few_bytes few ≡ bytes.now) }
    {
        let len = bytes.len();
        if len > FEW {
            return None;
        }
        let mut all = [0; FEW];
        all[..len].copy_from_slice(bytes);
        Some(Few {
            len: len as u8,
            bytes: all,
        })
    }

    pub(crate) fn as_slice(&self) -> &[u8]
        ensures { result.now ≡ few_bytes self.now }
    {
        &self.bytes[..self.len as usize]
    }

    // With others behind them, where they are few then.
    pub(crate) fn joined(self, more: &[u8]) -> Option<Few>
        ensures { MatchOption result (FEW < length (few_bytes self) + length more.now) (λ few. few_bytes few ≡ few_bytes self ++ more.now) }
    {
        let from = self.len as usize;
        if more.len() > FEW - from {
            return None;
        }
        let len = from + more.len();
        let mut all = self.bytes;
        all[from..len].copy_from_slice(more);
        Some(Few {
            len: len as u8,
            bytes: all,
        })
    }
}
