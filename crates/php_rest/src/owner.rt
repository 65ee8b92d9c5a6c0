// Whose code runs, and where.

use php_tables::Function;
use sqlite_items::Items;

/// A file of the program by its path, or a function.
#[derive(Clone, Copy)]
pub enum Owner<'a> {
    File(&'a Items<u8>),
    Function(Function<'a>),
}

/// Whose code runs, how many calls and includes enclose it, and the file and line of the innermost statement: what a
/// call or an include changes, and its end restores.
#[derive(Clone, Copy)]
pub struct Scene<'a> {
    pub owner: Owner<'a>,
    pub depth: usize,
    pub file: &'a Items<u8>,
    pub line: u32,
}
