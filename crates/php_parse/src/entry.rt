//! The tree of a text's tokens.

ghost use Rattle.std.specs.Prelude.{IfOk, IfErr};
ghost use Rattle.php_parser.specs.Verdict.{IsFileTree, IsFaultOf};

use crate::grammar_actions::GrammarActions;
use php_lexer::Tokens;
use php_parser::ParseFault;
use php_parsing::parse_by;
use php_tree::file::FileTree;
use std::alloc::Global;

/// The tree of a text's tokens, at most 200 nodes deep. It errs exactly where there is none: at the first token that no
/// file goes on with, or only files that are too deep, told by its place in bytes from 0 and by what is wrong
/// (`Memory` may come at any time). The tokens are those that `php_lexer::lex` gives of the text.
pub fn parse(alloc: Global, text: &[u8], tokens: &Tokens<'_>) -> Result<FileTree, ParseFault>
    ensures ok { IfOk result (λ tree. IsFileTree tokens.now tree) }
    ensures err { IfErr result (λ fault. IsFaultOf text.now tokens.now fault) }
{
    let tree = parse_by(alloc, text, tokens, GrammarActions)?;
    Ok(tree)
}
