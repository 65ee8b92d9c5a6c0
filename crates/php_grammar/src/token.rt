//! What the grammar sees of a token.

use php_tree::decl::Visibility;
use php_tree::expr::{AssignOp, ChainOp, CompareOp, IncludeKind, UnaryOp};

/// What a token is to the grammar. Tokens that stand in the same places are of one kind.
#[derive(Clone, Copy, Debug, PartialEq, Eq)]
pub enum Kind {
    /// a plain word
    Word,
    /// `float`, `iterable` or `object`: a plain word, but no hint.
    HintWord,
    Abstract,
    And,
    Array,
    As,
    /// `break` and `continue`
    Jump,
    Case,
    Catch,
    Class,
    Clone,
    Const,
    Default,
    /// `exit` and `die`
    Exit,
    Do,
    Echo,
    Else,
    ElseIf,
    Empty,
    EndFor,
    EndForeach,
    EndIf,
    EndSwitch,
    EndWhile,
    Extends,
    Final,
    For,
    Foreach,
    Function,
    Global,
    If,
    Implements,
    /// `include`, `require` and their `_once` forms
    Include,
    InstanceOf,
    Interface,
    Isset,
    /// `less_removed`
    Removed,
    New,
    Or,
    Print,
    /// `public`, `protected` and `private`
    Visibility,
    Return,
    Static,
    Switch,
    Throw,
    Try,
    Unset,
    /// the word `var`
    VarWord,
    While,
    Xor,
    /// a word of the language that this profile leaves out
    LeftOut,
    /// `==`, `!=`, `<>`, `===`, `!==` and `<=>`
    Equality,
    /// `<`, `<=`, `>` and `>=`
    Order,
    AndAnd,
    OrOr,
    Coalesce,
    /// `++` and `--`
    Step,
    /// `+=` and its kin
    AssignOp,
    Assign,
    DoubleArrow,
    Arrow,
    DoubleColon,
    Not,
    /// `+` and `-`
    Sign,
    Dot,
    /// `*`, `/` and `%`
    Product,
    Question,
    Colon,
    Semi,
    Comma,
    ParenOpen,
    ParenClose,
    BracketOpen,
    BracketClose,
    BraceOpen,
    BraceClose,
    Amp,
    Pipe,
    /// `@` and the casts
    Prefix,
    /// text outside the code
    Inline,
    /// `<?=`
    EchoTag,
    /// a variable, but for `$this`
    Var,
    This,
    Int,
    Text,
    /// a text with interpolation that embeds no expression
    Quote,
    /// a text that embeds expressions, of which the first follows
    QuoteOpen,
    /// the `}` of an embedded expression after which another one of the same text follows
    QuoteNext,
    /// the `}` of the last embedded expression of a text
    QuoteClose,
    End,
}

/// Which of the tokens of its kind a token is.
#[derive(Clone, Copy, Debug, PartialEq, Eq)]
pub enum Detail {
    Only,
    Chain(ChainOp),
    Compare(CompareOp),
    Assign(AssignOp),
    Unary(UnaryOp),
    Plus,
    Minus,
    Increment,
    Decrement,
    Include(IncludeKind),
    Visible(Visibility),
    Break,
    Continue,
}

/// Why no tree is read.
#[derive(Clone, Copy, Debug, PartialEq, Eq)]
pub enum Fault {
    /// No list of tokens that begins so has a tree.
    Bad,
    /// Each tree of such a list is too deep.
    Deep,
}
