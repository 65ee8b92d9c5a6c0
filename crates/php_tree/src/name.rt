//! Names, as they are written. Each kind has a type of its own.

use sqlite_items::Items;

/// The name of a variable, without its `$`. It is told apart by case.
#[derive(Debug, Drop)]
pub struct VarName {
    pub text: Items<u8>,
}

/// The name of a function, in any case.
#[derive(Debug, Drop)]
pub struct FunName {
    pub text: Items<u8>,
    /// The line of the name itself, from 1.
    pub line: u32,
}

/// The name of a constant, told apart by case but for `true`, `false` and `null`.
#[derive(Debug, Drop)]
pub struct ConstName {
    pub text: Items<u8>,
}

/// The name of a class or an interface, in any case: a word, `self`, `parent`, `static` or `array`.
#[derive(Debug, Drop)]
pub struct ClassName {
    pub text: Items<u8>,
    /// The line of the name itself, from 1.
    pub line: u32,
}

/// The name of a property (without a `$`), a method or a class constant.
#[derive(Debug, Drop)]
pub struct MemberName {
    pub text: Items<u8>,
    /// The line of the name itself, from 1.
    pub line: u32,
}
