//! What a token is, and what stands in an interpolated text.

use sqlite_items::Items;

/// What a token is.
#[derive(Debug, Drop)]
pub enum Kind {
    /// The bytes outside the code, up to the next open tag.
    Inline,
    /// The open tag `<?=`.
    Echo,
    /// `$` and a word.
    Var,
    Word,
    /// A whole number, with its value.
    Int(i64),
    /// A quoted text without interpolation, with the bytes that it stands for.
    Text(Items<u8>),
    /// A double-quoted text with interpolation, with its parts in order. The tokens of its embedded expressions, each with
    /// the closing brace, follow it in the list.
    Quote(Items<Part>),
    /// `(int)` and its kin.
    Cast(Cast),
    Sign(Sign),
    /// The end of the text.
    End,
}

/// A part of an interpolated text.
#[derive(Debug, Drop)]
pub enum Part {
    /// Bytes that stand for themselves, escapes resolved; at least one, and never directly after such a part.
    Bytes(Items<u8>),
    /// `$v`, with the name without `$`.
    Var(Items<u8>),
    /// `$v[k]`.
    Index(Items<u8>, IndexKey),
    /// `$v->p`.
    Property(Items<u8>, Items<u8>),
    /// `{$ .. }`. The tokens of the expression follow the text's token.
    Embedded,
}

/// What stands between the brackets of `$v[k]`.
#[derive(Debug, Drop)]
pub enum IndexKey {
    /// A word, or digits with an optional `-`, as it stands. It goes through the normal form of keys.
    Plain(Items<u8>),
    /// A variable, by its name without `$`.
    Var(Items<u8>),
}

/// What a cast converts to.
#[derive(Clone, Copy, Debug, PartialEq, Eq)]
pub enum Cast {
    Int,
    Text,
    Bool,
    Array,
}

/// The signs.
#[derive(Clone, Copy, Debug, PartialEq, Eq)]
pub enum Sign {
    /// `===`
    Identical,
    /// `!==`
    NotIdentical,
    /// `<=>`
    Spaceship,
    /// `==`
    Equal,
    /// `!=`
    NotEqual,
    /// `<>`
    LessGreater,
    /// `<=`
    LessEqual,
    /// `>=`
    GreaterEqual,
    /// `&&`
    AndAnd,
    /// `||`
    OrOr,
    /// `??`
    Coalesce,
    /// `++`
    PlusPlus,
    /// `--`
    MinusMinus,
    /// `+=`
    PlusAssign,
    /// `-=`
    MinusAssign,
    /// `*=`
    StarAssign,
    /// `/=`
    SlashAssign,
    /// `.=`
    DotAssign,
    /// `%=`
    PercentAssign,
    /// `=>`
    DoubleArrow,
    /// `->`
    Arrow,
    /// `::`
    DoubleColon,
    /// `=`
    Assign,
    /// `<`
    Less,
    /// `>`
    Greater,
    /// `!`
    Not,
    /// `+`
    Plus,
    /// `-`
    Minus,
    /// `*`
    Star,
    /// `/`
    Slash,
    /// `%`
    Percent,
    /// `.`
    Dot,
    /// `?`
    Question,
    /// `:`
    Colon,
    /// `;`, or the close tag `?>`
    Semicolon,
    /// `,`
    Comma,
    /// `(`
    ParenOpen,
    /// `)`
    ParenClose,
    /// `[`
    BracketOpen,
    /// `]`
    BracketClose,
    /// `{`
    BraceOpen,
    /// `}`
    BraceClose,
    /// `&`
    Ampersand,
    /// `|`
    Pipe,
    /// `@`
    At,
}
