//! The tokens of a text as the grammar sees them.

ghost use Rattle.std.specs.Prelude.{◌≡◌, ◌∷◌, [], map, OnOk, IfOk};
ghost use Rattle.php_lexer.specs.Marks.{mark_of};
ghost use Rattle.php_lexemes.specs.Lexemes as spec;
ghost use Rattle.php_lexemes.specs.Names.{names_of, name_text, noted_all, mark_names};

use crate::keys::key;
use crate::names::{Names, past_sign};
use crate::signs::cast_sort;
use crate::sorts::Around;
use crate::words::word_sort;
use php_grammar::lexeme::{Bytes, Lexeme};
use php_grammar::token::{Detail, Kind};
use php_lexer::{Part, Token};
use php_tree::expr::QuotePart;
use php_tree::name::{MemberName, VarName};
use sqlite_items::Items;
use std::alloc::{AllocError, Global};

/// The tokens of a text as the grammar sees them, and the names of its variables.
#[derive(Drop)]
pub struct Numbered<'t> {
    pub list: Items<Lexeme<'t>>,
    /// Each once, in the order of their first tokens.
    pub names: Items<VarName>,
}

/// The tokens as the grammar sees them. It takes time in proportion to the text.
pub fn lexemes<'t>(alloc: Global, tokens: &'t [Token<'t>]) -> Result<Numbered<'t>, AllocError>
    ensures names { IfOk result (λ r. map name_text r.names ≡ names_of (map mark_of tokens.now)) }
    ensures list { IfOk result (λ r. r.list ≡ spec.lexemes (names_of (map mark_of tokens.now)) (map mark_of tokens.now)) }
{
    let names = names_in(alloc, tokens)?;
    let list = list_of(alloc, &names, tokens)?;
    let names = names.into_list(alloc)?;
    Ok(Numbered { list, names })
}

fn names_in<'t>(alloc: Global, tokens: &'t [Token<'t>]) -> Result<Names<'t>, AllocError>
    ensures { IfOk result (λ names. names ≡ names_of (map mark_of tokens.now)) }
{
    let mut names = Names::new(alloc);
    for token in tokens {
        names.note_token(token)?;
    }
    Ok(names)
}

fn list_of<'t>(
    alloc: Global,
    names: &Names<'t>,
    tokens: &'t [Token<'t>],
) -> Result<Items<Lexeme<'t>>, AllocError>
    ensures { IfOk result (λ list. list ≡ spec.lexemes names.now (map mark_of tokens.now)) }
{
    let mut around = Around::new(alloc);
    let mut list = Items::new(alloc);
    for token in tokens {
        let lexeme = lexeme(alloc, names, &mut around, token)?;
        list.push(lexeme)?;
    }
    Ok(list)
}

/// A token as the grammar sees it.
fn lexeme<'t>(
    alloc: Global,
    names: &Names<'t>,
    around: &mut Around,
    token: &'t Token<'t>,
) -> Result<Lexeme<'t>, AllocError>
    ensures lexeme { IfOk result (λ x. x ≡ spec.lexeme names.now around.old (mark_of token.now)) }
    ensures after { OnOk result (around.new ≡ spec.open_after around.old (mark_of token.now)) }
{
    let mut said = Lexeme {
        kind: Kind::End,
        detail: Detail::Only,
        at: token.at,
        line: token.line,
        number: 0,
        int: 0,
        text: Bytes::new(token.text),
        parts: Items::new(alloc),
    };
    match &token.kind {
        php_lexer::Kind::Inline => said.kind = Kind::Inline,
        php_lexer::Kind::Echo => said.kind = Kind::EchoTag,
        php_lexer::Kind::Var => {
            let name = past_sign(token.text);
            said.kind = var_kind(name);
            said.number = names.number(name)?;
            said.text = Bytes::new(name);
        }
        php_lexer::Kind::Word => {
            let (kind, detail) = word_sort(token.text);
            said.kind = kind;
            said.detail = detail;
        }
        php_lexer::Kind::Int(value) => {
            said.kind = Kind::Int;
            said.int = *value;
        }
        php_lexer::Kind::Text(bytes) => {
            said.kind = Kind::Text;
            said.text = Bytes::new(bytes.as_slice());
        }
        php_lexer::Kind::Quote(parts) => {
            said.kind = around.quote(parts.as_slice())?;
            said.parts = numbered_parts(alloc, names, token.line, parts.as_slice())?;
        }
        php_lexer::Kind::Cast(cast) => {
            let (kind, detail) = cast_sort(*cast);
            said.kind = kind;
            said.detail = detail;
        }
        php_lexer::Kind::Sign(sign) => {
            let (kind, detail) = around.sign(*sign)?;
            said.kind = kind;
            said.detail = detail;
        }
        php_lexer::Kind::End => {}
    }
    Ok(said)
}

fn var_kind(name: &[u8]) -> Kind
    ensures { result ≡ (spec.var_sort name.now).0 }
{
    if name == b"this".as_slice() {
        Kind::This
    } else {
        Kind::Var
    }
}

/// The parts of a text, with variables by number.
fn numbered_parts(
    alloc: Global,
    names: &Names<'_>,
    line: u32,
    parts: &[Part],
) -> Result<Items<QuotePart<()>>, AllocError>
    ensures { IfOk result (λ ps. ps ≡ spec.parts_of names.now line parts.now) }
{
    let mut list = Items::new(alloc);
    for part in parts {
        list.push(numbered_part(alloc, names, line, part)?)?;
    }
    Ok(list)
}

fn numbered_part(
    alloc: Global,
    names: &Names<'_>,
    line: u32,
    part: &Part,
) -> Result<QuotePart<()>, AllocError>
    ensures { IfOk result (λ p. p ≡ spec.part_of names.now line part.now) }
{
    match part {
        Part::Bytes(bytes) => {
            let bytes = Items::from_slice(alloc, bytes.as_slice())?;
            Ok(QuotePart::Bytes(bytes))
        }
        Part::Var(name) => {
            let number = names.number(name.as_slice())?;
            Ok(QuotePart::Var(number))
        }
        Part::Index(name, index) => {
            let number = names.number(name.as_slice())?;
            let key = key(alloc, names, index)?;
            Ok(QuotePart::Index(number, key))
        }
        Part::Property(name, property) => {
            let number = names.number(name.as_slice())?;
            let text = Items::from_slice(alloc, property.as_slice())?;
            Ok(QuotePart::Property(number, MemberName { text, line }))
        }
        Part::Embedded => Ok(QuotePart::Embedded(())),
    }
}
