//! The names of what ends a run and cannot be caught.

/// Why a run ended at once.
#[derive(Clone, Copy, Debug, PartialEq, Eq)]
pub enum FatalName {
    /// A number with a point, an exponent or outside 64 bits was wanted or made.
    Float,
    /// A text, an array or the output would be above its limit.
    Size,
    /// The name that is told is `type`.
    Mistyped,
    Sort,
    Row,
    Arity,
    Keys,
    Depth,
    Missing,
    Redeclared,
    Abstract,
    Uncaught,
}
