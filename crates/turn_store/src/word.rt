//! The fields of a slot's word: bit 0 taken, bits 1 to 32 the generation, bits 33 to 56 the change number, bits 57 to 63 the pin.
ghost use Rattle.std.specs.Prelude.{◌≡◌, ◌+◌, ◌-◌, ◌*◌, ◌%◌, ◌<◌};
ghost use Rattle.turn_store.specs.Words.{generation_of, change_of, pin_of};

/// The generation of a lock that is given back no more.
pub(crate) const LAST_GENERATION: u32 = u32::MAX;

/// The change number of a slot that is pinned no more.
pub(crate) const LAST_CHANGE: u32 = 0xff_ffff;

/// How often the lock was given back, counted from the opening generation.
pub(crate) fn generation(word: u64) -> u32
    ensures { result ≡ generation_of word }
{
    ((word >> 1) & 0xffff_ffff) as u32
}

/// How often the slot was pinned.
pub(crate) fn change(word: u64) -> u32
    ensures { result ≡ change_of word }
{
    (word >> 33) as u32 & 0xff_ffff
}

/// The role that the slot is pinned to, 0 for none.
pub(crate) fn pin(word: u64) -> u8
    ensures { result ≡ pin_of word }
{
    (word >> 57) as u8
}

/// What a word gains at the next change, modulo 2^64, to have this role for its pin.
pub(crate) fn next_change(word: u64, role: u8) -> u64
    requires { role < 128 }
    ensures { result ≡ (1 + (role + 128 - pin_of word) % 128 * 16777216) * 8589934592 }
{
    let turned = (role as u64 + 128 - pin(word) as u64) % 128;
    (1 + turned * (1 << 24)) << 33
}
