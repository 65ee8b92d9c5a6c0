// What makes trees of tokens.
ghost use Rattle.std.specs.Prelude.{◌≤◌, length, IfOk, IfErr};
ghost use Rattle.php_lexer.specs.Tokens.{IsTokens};
ghost use Rattle.php_parser.specs.Verdict.{IsFileTree, IsFaultOf};

use php_lexer::Tokens;
use php_parser::ParseFault;
use php_tree::file::FileTree;
use std::alloc::Global;

/// A parser of PHP files.
pub trait Parser {
    /// The tree of the tokens of a text, or the first token at which they stop being a file.
    fn parse(&self, alloc: Global, text: &[u8], tokens: &Tokens<'_>) -> Result<FileTree, ParseFault>
        requires short { length text.now ≤ 1048576 }
        requires read { IsTokens text.now tokens.now }
        ensures tree { IfOk result (IsFileTree tokens.now) }
        ensures fault { IfErr result (IsFaultOf text.now tokens.now) };
}
