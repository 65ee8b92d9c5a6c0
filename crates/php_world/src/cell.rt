// Cells, and what names are bound to.

/// A cell of a global or static variable, or one of a call, by its number.
#[derive(Clone, Copy, Debug, PartialEq, Eq)]
pub enum Cell {
    Lasting(usize),
    Local(usize),
}

/// What a name is bound to: nothing, a cell that no other name was ever bound to, or one that may have other names.
#[derive(Clone, Copy, Debug, PartialEq, Eq)]
pub enum Held {
    Nothing,
    OwnLasting(usize),
    OwnLocal(usize),
    SharedLasting(usize),
    SharedLocal(usize),
}
