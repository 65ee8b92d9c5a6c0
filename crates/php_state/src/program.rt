// What is run.

use php_tables::PathTable;
use php_tree::name::VarName;
use php_tree::stmt::Stmt;
use sqlite_items::Items;

/// A file of a program. Its variables are numbered as those of all files of the program.
#[derive(Drop)]
pub struct ProgramFile {
    pub path: Items<u8>,
    pub statements: Items<Stmt>,
}

/// The PHP files of an application, or of a copy of it.
#[derive(Drop)]
pub struct Program {
    pub files: Items<ProgramFile>,
    /// The paths of the files, by their numbers.
    pub paths: PathTable,
    /// The names of the variables of all files, by their numbers.
    pub names: Items<VarName>,
}
