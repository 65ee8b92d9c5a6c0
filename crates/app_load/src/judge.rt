// Judges the tokens and the tree of one PHP file.
ghost use Rattle.std.specs.Prelude.{◌≡◌, ℕ, ◌+◌, ◌≤◌, ◌<◌, List, [], length, IfOk, IfErr, Some, None};
ghost use Rattle.std.specs.Option.{option_map};
ghost use Rattle.std.specs.Str.{str_to_ascii_lowercase};
ghost use Rattle.php_lexer.specs.Marks.{Mark, mark_of};
ghost use Rattle.php_lexer.specs.Tokens.{IsTokens};
ghost use Rattle.php_parser.specs.Verdict.{IsFileTree};
ghost use Rattle.app_load.specs.Files.{tree_of};
ghost use Rattle.app_load.specs.Judged as spec;
ghost use Rattle.app_load.specs.Outcomes.{IsReadFault, IsTreeFault, IsStrayFault, IsRuleFault, IsFileFault, PassesRules};
ghost use Rattle.app_load.specs.Stubs as stubs;

use crate::fault::AppKind;
use crate::finding::find_statements;
use crate::stub::{first_reserved, first_stray, placeholders};
use crate::twice::{first_leaving, first_twice};
use php_lexer::{LexFault, Tokens, lex, line_of};
use php_tree::file::FileTree;
use sqlite_items::Items;
use std::alloc::{AllocError, AllocFailed, Global};

/// What a text is part of.
#[derive(Clone, Copy, Debug, PartialEq, Eq)]
pub enum Setting {
    Application,
    Copy,
}

/// Why a text is refused.
#[derive(Debug, Drop)]
pub enum FileFault {
    At { line: u32, kind: AppKind },
    /// In a copy, a word `less_removed` that is no part of a placeholder.
    Stray { line: u32 },
    Memory,
}

impl From<AllocError> for FileFault {
    ghost use Rattle.std.specs.Prelude.{◌≡◌};
    ghost use Rattle.app_load.specs.declared.judge.FileFault.TheVariants.{Memory};

    ghost from_gives = { λ _ fault. fault ≡ Memory };

    fn from(_: AllocError) -> Self {
        FileFault::Memory
    }
}

impl<T: Drop> From<AllocFailed<T>> for FileFault {
    ghost use Rattle.std.specs.Prelude.{◌≡◌};
    ghost use Rattle.app_load.specs.declared.judge.FileFault.TheVariants.{Memory};

    ghost from_gives = { λ _ fault. fault ≡ Memory };

    fn from(_: AllocFailed<T>) -> Self {
        FileFault::Memory
    }
}

/// The tokens of a text of at most 1 MiB. In an application the word `less_removed` is none of them.
#[tactic(auto, using(crate::proofs::Verdicts::word_refused))]
pub fn read_tokens<'t>(
    alloc: Global,
    setting: Setting,
    text: &'t [u8],
) -> Result<Tokens<'t>, FileFault>
    requires { length text.now ≤ 1048576 }
    ensures read { IfOk result (spec.IsRead setting text.now) }
    ensures fault { IfErr result (IsReadFault setting text.now) }
{
    let tokens = match lex(alloc, text) {
        Ok(tokens) => tokens,
        Err(LexFault::At { place, kind }) => {
            return Err(FileFault::At {
                line: line_of(text, place as usize),
                kind: AppKind::Lex(kind),
            });
        }
        Err(LexFault::Memory) => return Err(FileFault::Memory),
    };
    match setting {
        Setting::Copy => Ok(tokens),
        Setting::Application => match first_reserved(tokens.as_slice()) {
            None => Ok(tokens),
            Some(token) => Err(FileFault::At {
                line: token.line,
                kind: AppKind::ReservedWord(Items::from_slice(alloc, token.text)?),
            }),
        },
    }
}

/// In a copy each word `less_removed` stands in a placeholder of the exact form; else the line of the first that does not is told.
#[tactic(auto, using(crate::proofs::Verdicts::stray_refused))]
pub fn check_placeholders(
    alloc: Global,
    setting: Setting,
    path: &[u8],
    text: &[u8],
    tokens: &Tokens<'_>,
    tree: &FileTree,
) -> Result<(), FileFault>
    ensures exact { IfOk result (λ _. spec.IsExact setting path.now text.now tokens.now tree.now) }
    ensures fault { IfErr result (IsStrayFault setting path.now text.now tokens.now tree.now) }
{
    match setting {
        Setting::Application => Ok(()),
        Setting::Copy => {
            let places = placeholders(alloc, path, text, tree.functions.as_slice())?;
            match first_stray(&places, tokens.as_slice()) {
                Some(line) => Err(FileFault::Stray { line }),
                None => Ok(()),
            }
        }
    }
}

fn lower(alloc: Global, word: &[u8]) -> Result<Items<u8>, AllocError>
    ensures { IfOk result (λ lower. lower ≡ str_to_ascii_lowercase word.now) }
{
    let mut items = Items::new(alloc);
    for byte in word {
        items.push(byte.to_ascii_lowercase())?;
    }
    Ok(items)
}

/// Tells the first name that is declared twice, and where there is none, the first jump out of more than there is around it.
#[tactic(auto, using(crate::proofs::Verdicts::twice_refused, crate::proofs::Verdicts::leaving_refused))]
pub fn check_rules(alloc: Global, tree: &FileTree) -> Result<(), FileFault>
    ensures passes { IfOk result (λ _. PassesRules tree.now) }
    ensures fault { IfErr result (IsRuleFault tree.now) }
{
    let mut found = Vec::new(alloc);
    find_statements(
        &mut found,
        tree.variables.as_slice(),
        0,
        tree.stmts.as_slice(),
    )?;
    if let Some(name) = first_twice(alloc, &found)? {
        return Err(FileFault::At {
            line: name.line,
            kind: AppKind::Twice(lower(alloc, name.word)?),
        });
    }
    if let Some(line) = first_leaving(&found) {
        return Err(FileFault::At {
            line,
            kind: AppKind::BreakDepth,
        });
    }
    Ok(())
}
