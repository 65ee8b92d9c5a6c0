//! Files of applications, and of copies of them.

use php_tree::file::FileTree;

/// A file: its path, its text, and for a PHP file its tree.
#[derive(Drop)]
pub struct AppFile {
    pub path: String,
    pub text: Vec<u8>,
    /// There is none exactly for a static file.
    pub tree: Option<FileTree>,
}
