//! What can be entered, recorded, kept and removed.

/// A file of an application, or one of its functions. Definitions see it through `entry_of`.
#[derive(Debug, PartialEq, Eq, Drop)]
pub enum Entry {
    File { path: String },
    /// The name is in lower case, `class::method` for a method.
    Function { path: String, name: String },
}

/// What is removed: whole files, or also functions of files that are kept.
#[derive(Clone, Copy, Debug, PartialEq, Eq)]
pub enum Level {
    File,
    Function,
}
