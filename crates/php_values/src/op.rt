// The operations of arithmetic.

/// `+ - * / %`, and `.`, which joins texts.
#[derive(Clone, Copy, Debug, PartialEq, Eq)]
pub enum ArithOp {
    Add,
    Subtract,
    Multiply,
    Divide,
    Remainder,
    Join,
}
