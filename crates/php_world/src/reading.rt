// How a place is read.

/// `Plain`: as an expression. `Quiet`: as `isset`, `empty` and `??` do, where a byte out of range or a text key on a text
/// counts as not set.
#[derive(Clone, Copy, Debug, PartialEq, Eq)]
pub enum Reading {
    Plain,
    Quiet,
}
