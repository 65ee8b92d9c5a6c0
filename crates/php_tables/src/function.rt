// Functions of a program.

use php_tree::decl::FunDecl;
use sqlite_items::{Boxed, Items};

/// A function of the program, by the path of its file and its declaration.
#[derive(Clone, Copy)]
pub struct Function<'a> {
    pub path: &'a Items<u8>,
    pub declaration: &'a Boxed<FunDecl>,
}
