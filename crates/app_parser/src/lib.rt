//! The parser that applications and copies are loaded with.
#![tactic(auto)]

use app_loader::Parser;
use php_lexer::Tokens;
use php_parser::ParseFault;
use php_tree::file::FileTree;
use std::alloc::Global;

/// The parser of `php_parse`.
#[derive(Clone, Copy, Debug, Drop)]
pub struct PhpParser;

impl Parser for PhpParser {
    fn parse(
        &self,
        alloc: Global,
        text: &[u8],
        tokens: &Tokens<'_>,
    ) -> Result<FileTree, ParseFault> {
        php_parse::parse(alloc, text, tokens)
    }
}

#[cfg(test)]
mod tests;
