// Judges one PHP text.
ghost use Rattle.std.specs.Prelude.{◌≡◌, ◌≤◌, length, IfOk, IfErr};
ghost use Rattle.php_tree.specs.StatementOf.{statements_of};
ghost use Rattle.php_tree.specs.Functions.{functions_of};
ghost use Rattle.php_parser.specs.Verdict.{IsFileTree};
ghost use Rattle.php_lexer.specs.Tokens.{IsTokens};
ghost use Rattle.app_load.specs.Files.{tree_of};
ghost use Rattle.app_load.specs.Judged.{Judged, good};
ghost use Rattle.app_load.specs.Outcomes.{IsTreeFault, IsFileFault};

use crate::parser::Parser;
use app_load::judge::{FileFault, Setting, check_placeholders, check_rules, read_tokens};
use app_load::{AppKind, LimitName};
use php_lexer::{Tokens, line_of};
use php_parser::ParseFault;
use php_tree::file::FileTree;
use std::alloc::Global;

/// The greatest size of a PHP file, in bytes.
pub const MAX_FILE_BYTES: usize = 1_048_576;

// The tree of tokens, or the line and kind of their fault.
#[tactic(auto, using(crate::proofs::Judging::parse_refused))]
fn parse_tokens<P: Parser>(
    alloc: Global,
    parser: &P,
    text: &[u8],
    tokens: &Tokens<'_>,
) -> Result<FileTree, FileFault>
    requires short { length text.now ≤ 1048576 }
    requires read { IsTokens text.now tokens.now }
    ensures tree { IfOk result (IsFileTree tokens.now) }
    ensures fault { IfErr result (IsTreeFault text.now tokens.now) }
{
    match parser.parse(alloc, text, tokens) {
        Ok(tree) => Ok(tree),
        Err(ParseFault::At { place, kind }) => Err(FileFault::At {
            line: line_of(text, place as usize),
            kind: AppKind::Parse(kind),
        }),
        Err(ParseFault::Memory) => Err(FileFault::Memory),
    }
}

/// The tree of a PHP text with a path, where the text is accepted; else its first fault.
#[tactic(auto, using(crate::proofs::Judging::too_long_refused, crate::proofs::Judging::read_refused, crate::proofs::Judging::tree_refused, crate::proofs::Judging::stray_refused, crate::proofs::Judging::rules_refused, crate::proofs::Judging::text_accepted))]
pub fn judge_text<P: Parser>(
    alloc: Global,
    parser: &P,
    setting: Setting,
    path: &[u8],
    text: &[u8],
) -> Result<FileTree, FileFault>
    ensures tree { IfOk result (λ tree. Judged setting path.now text.now (good (tree_of tree))) }
    ensures functions { IfOk result (λ tree. tree.functions ≡ functions_of (statements_of tree.stmts)) }
    ensures fault { IfErr result (IsFileFault setting path.now text.now) }
{
    if text.len() > MAX_FILE_BYTES {
        return Err(FileFault::At {
            line: 0,
            kind: AppKind::Limit(LimitName::File),
        });
    }
    let tokens = read_tokens(alloc, setting, text)?;
    let tree = parse_tokens(alloc, parser, text, &tokens)?;
    check_placeholders(alloc, setting, path, text, &tokens, &tree)?;
    check_rules(alloc, &tree)?;
    Ok(tree)
}
