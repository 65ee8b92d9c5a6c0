// What a run came to.

use php_meaning::FatalName;
use php_rest::Owner;
use sqlite_items::Items;

/// How a run ends.
#[derive(Clone, Copy)]
pub enum End<'a> {
    Done,
    /// A file or function that was taken out of the copy was to be entered.
    Removed(Owner<'a>),
    /// One tick more than the budget was wanted.
    Budget,
    /// The run could not go on, at a line of a file.
    Fatal(FatalName, &'a Items<u8>, u32),
}

/// What a run came to. Contracts see it by `result_in`.
#[derive(Drop)]
pub struct Run<'a> {
    pub output: Vec<u8>,
    /// What was entered, in order, each as often as it was.
    pub entries: Vec<Owner<'a>>,
    pub end: End<'a>,
}
