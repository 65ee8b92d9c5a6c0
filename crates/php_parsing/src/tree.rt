//! The tree of the tokens of a text, or the first token at which there is none.

ghost use Rattle.std.specs.Prelude.{IfOk, IfErr};
ghost use Rattle.php_grammar.specs.Place.{IsTree};
ghost use Rattle.php_tree.specs.StatementOf.{statements_of};
ghost use Rattle.php_reading.specs.File.{IsFileFault};
ghost use Rattle.php_parser.specs.Verdict.{IsFileTree, IsFaultOf};

use crate::actions::Actions;
use crate::failing::{kind_at, place_at};
use crate::source::Source;
use backward_list::Backward;
use php_functions::functions;
use php_grammar::lexeme::Lexeme;
use php_lexemes::{Numbered, lexemes};
use php_lexer::Tokens;
use php_parser::ParseFault;
use php_popped::lists::pop_stmts;
use php_reader::read_file;
use php_reading::FileFault;
use php_tree::file::FileTree;
use php_tree::stmt::Stmt;
use sqlite_items::Items;
use std::alloc::Global;

/// The tree of a text's tokens, at most 200 nodes deep. It errs exactly where there is none, at the first token that no
/// file goes on with, or only files that are too deep (`Memory` may come at any time).
pub fn parse_by<A: Actions + Drop>(
    alloc: Global,
    text: &[u8],
    tokens: &Tokens<'_>,
    actions: A,
) -> Result<FileTree, ParseFault>
    ensures ok { IfOk result (λ tree. IsFileTree tokens.now tree) }
    ensures err { IfErr result (λ fault. IsFaultOf text.now tokens.now fault) }
{
    let tokens = tokens.as_slice();
    let Numbered { list, names } = lexemes(alloc, tokens)?;
    match statements(alloc, list.as_slice(), actions) {
        Ok(stmts) => {
            let functions = functions(alloc, stmts.as_slice())?;
            Ok(FileTree {
                stmts,
                functions,
                variables: names,
            })
        }
        Err(FileFault::At { place, fault }) => Err(ParseFault::At {
            place: place_at(text, tokens, place)?,
            kind: kind_at(alloc, tokens, place, fault)?,
        }),
        Err(FileFault::Memory) => Err(ParseFault::Memory),
    }
}

fn statements<'t, A: Actions + Drop>(
    alloc: Global,
    list: &'t [Lexeme<'t>],
    actions: A,
) -> Result<Items<Stmt>, FileFault>
    ensures ok { IfOk result (λ stmts. IsTree (statements_of stmts) list.now) }
    ensures err { IfErr result (λ fault. IsFileFault list.now fault) }
{
    let source = Source {
        alloc,
        actions,
        left: list,
        stack: Backward::new(alloc),
    };
    let mut read = read_file(alloc, source)?;
    Ok(pop_stmts(alloc, &mut read.stack).into_items())
}
