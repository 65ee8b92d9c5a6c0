// The words that a fault is told by: the kind's name in lower case, and each name that it carries.
ghost use Rattle.std.specs.Prelude.{◌≡◌, ◌++◌, OnOk};
ghost use Rattle.load_notes.specs.Notes as spec;

use app_load::{AppKind, CopyKind, LimitName};
use less_terms::Memory;
use php_lexer::{FormName, LexKind};
use php_parser::ParseKind;

fn form_text(name: FormName) -> &'static [u8]
    ensures { result.now ≡ spec.form_text name }
{
    match name {
        FormName::Float => b"float",
        FormName::Octal => b"octal",
        FormName::Number => b"number",
        FormName::Heredoc => b"heredoc",
        FormName::Backtick => b"backtick",
        FormName::Dollar => b"dollar",
        FormName::Offset => b"offset",
        FormName::Unicode => b"unicode",
        FormName::Cast => b"cast",
        FormName::Power => b"power",
        FormName::Spread => b"spread",
        FormName::Bits => b"bits",
        FormName::Coalesce => b"coalesce",
        FormName::Namespace => b"namespace",
        FormName::Name => b"name",
        FormName::Nesting => b"nesting",
    }
}

fn limit_text(name: LimitName) -> &'static [u8]
    ensures { result.now ≡ spec.limit_text name }
{
    match name {
        LimitName::Path => b"limit path",
        LimitName::Files => b"limit files",
        LimitName::Total => b"limit total",
        LimitName::Static => b"limit static",
        LimitName::File => b"limit file",
        LimitName::Functions => b"limit functions",
    }
}

/// The word of a copy's fault.
pub fn copy_kind_text(kind: CopyKind) -> &'static [u8]
    ensures { result.now ≡ spec.copy_kind_text kind }
{
    match kind {
        CopyKind::BadFile => b"badfile",
        CopyKind::Placeholder => b"placeholder",
    }
}

// Puts a word and a name behind a note.
fn push_named(note: &mut Vec<u8>, word: &[u8], name: &[u8]) -> Result<(), Memory>
    ensures { OnOk result (note.new.items ≡ note.old.items ++ (word.now ++ name.now)) }
{
    note.extend_from_slice(word)?;
    note.extend_from_slice(name)?;
    Ok(())
}

fn push_lex(note: &mut Vec<u8>, kind: LexKind) -> Result<(), Memory>
    ensures { OnOk result (note.new.items ≡ note.old.items ++ spec.lex_text kind) }
{
    match kind {
        LexKind::BadByte => note.extend_from_slice(b"lex badbyte")?,
        LexKind::OpenString => note.extend_from_slice(b"lex openstring")?,
        LexKind::OpenComment => note.extend_from_slice(b"lex opencomment")?,
        LexKind::Form(name) => push_named(note, b"lex form ", form_text(name))?,
    }
    Ok(())
}

fn push_parse(note: &mut Vec<u8>, kind: &ParseKind) -> Result<(), Memory>
    ensures { OnOk result (note.new.items ≡ note.old.items ++ spec.parse_text kind.now) }
{
    match kind {
        ParseKind::Unexpected => note.extend_from_slice(b"parse unexpected")?,
        ParseKind::LeftOut(name) => push_named(note, b"parse leftout ", name.text.as_slice())?,
        ParseKind::Depth => note.extend_from_slice(b"parse depth")?,
    }
    Ok(())
}

/// Puts the words of an application's fault behind a note.
pub fn push_kind(note: &mut Vec<u8>, kind: &AppKind) -> Result<(), Memory>
    ensures { OnOk result (note.new.items ≡ note.old.items ++ spec.kind_text kind.now) }
{
    match kind {
        AppKind::Lex(kind) => push_lex(note, *kind)?,
        AppKind::Parse(kind) => push_parse(note, kind)?,
        AppKind::ReservedWord(word) => push_named(note, b"reservedword ", word.as_slice())?,
        AppKind::Twice(name) => push_named(note, b"twice ", name.as_slice())?,
        AppKind::BreakDepth => note.extend_from_slice(b"breakdepth")?,
        AppKind::Limit(name) => note.extend_from_slice(limit_text(*name))?,
    }
    Ok(())
}
