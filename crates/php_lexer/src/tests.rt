//! The rows of the language's tokens, each printed in one line.

ghost use Rattle.std.specs.Prelude.{◌≤◌, length};

use crate::{Cast, FormName, IndexKey, Kind, LexFault, LexKind, Part, Sign, lex, line_of};
use sqlite_items::Items;
use std::alloc::Global;
use std::process::Abort;
use std::test::Fail;

fn put(out: &mut String, bytes: &[u8]) -> Result<(), Fail> {
    for b in bytes {
        if 32 <= *b && *b < 127 {
            out.push(char::from(*b))?;
        } else {
            write!(out, "<{b}>")?;
        }
    }
    Ok(())
}

fn put_part(out: &mut String, part: &Part) -> Result<(), Fail> {
    match part {
        Part::Bytes(bytes) => put(out, bytes.as_slice())?,
        Part::Var(name) => {
            out.push_str("|$")?;
            put(out, name.as_slice())?;
        }
        Part::Index(name, IndexKey::Plain(key)) => {
            out.push_str("|i ")?;
            put(out, name.as_slice())?;
            out.push(' ')?;
            put(out, key.as_slice())?;
        }
        Part::Index(name, IndexKey::Var(key)) => {
            out.push_str("|v ")?;
            put(out, name.as_slice())?;
            out.push(' ')?;
            put(out, key.as_slice())?;
        }
        Part::Property(name, property) => {
            out.push_str("|p ")?;
            put(out, name.as_slice())?;
            out.push(' ')?;
            put(out, property.as_slice())?;
        }
        Part::Embedded => out.push_str("|{}")?,
    }
    Ok(())
}

fn put_kind(out: &mut String, kind: &Kind) -> Result<(), Fail> {
    match kind {
        Kind::Inline => out.push_str("INLINE")?,
        Kind::Echo => out.push_str("ECHO")?,
        Kind::Var => out.push_str("VAR")?,
        Kind::Word => out.push_str("WORD")?,
        Kind::Int(number) => write!(out, "INT {number}")?,
        Kind::Text(bytes) => {
            out.push_str("TEXT ")?;
            put(out, bytes.as_slice())?;
        }
        Kind::Quote(parts) => {
            out.push_str("QUOTE ")?;
            for part in parts.as_slice() {
                put_part(out, part)?;
            }
        }
        Kind::Cast(cast) => write!(out, "CAST {cast:?}")?,
        Kind::Sign(sign) => write!(out, "{sign:?}")?,
        Kind::End => out.push_str("END")?,
    }
    Ok(())
}

/// The kinds of the tokens, or the fault.
fn kinds(alloc: Global, text: &[u8]) -> Result<String, Fail>
    requires { length text.now ≤ 1048576 }
{
    let mut out = String::new(alloc);
    match lex(alloc, text) {
        Ok(tokens) => {
            for token in tokens.as_slice() {
                put_kind(&mut out, &token.kind)?;
                out.push(';')?;
            }
        }
        Err(LexFault::At { place, kind }) => write!(&mut out, "{kind:?} at {place}")?,
        Err(LexFault::Memory) => out.push_str("memory")?,
    }
    Ok(out)
}

fn row(rt: &impl Abort, alloc: Global, text: &[u8], wanted: &str) -> Result<(), Fail> {
    assert!(rt; text.len() <= 1_048_576);
    let got = kinds(alloc, text)?;
    assert_eq!(rt; got.as_str(), wanted);
    Ok(())
}

#[test]
fn faults_stand_at_their_first_byte(rt: HostRuntime) -> Result<(), Fail> {
    let alloc = rt.alloc();
    let rows: [(&[u8], &str); 26] = [
        (b"<?php 'a", "OpenString at 6"),
        (b"<?php 1.5", "Form(Float) at 6"),
        (b"<?php /* x", "OpenComment at 6"),
        (b"<?php $", "Form(Dollar) at 6"),
        (b"<?php \"\\u{110000}\"", "Form(Unicode) at 7"),
        (b"<?php 1.", "Form(Float) at 6"),
        (b"<?php .5", "Form(Float) at 6"),
        (b"<?php 1e5", "Form(Float) at 6"),
        (b"<?php 0E+1", "Form(Float) at 6"),
        (b"<?php 089", "Form(Octal) at 6"),
        (b"<?php 0x", "Form(Number) at 6"),
        (b"<?php 0B2", "Form(Number) at 6"),
        (b"<?php <<<A", "Form(Heredoc) at 6"),
        (b"<?php `", "Form(Backtick) at 6"),
        (b"<?php \"${a}\"", "Form(Dollar) at 7"),
        (b"<?php \"$a[-]\"", "Form(Offset) at 10"),
        (b"<?php (Float)$a", "Form(Cast) at 6"),
        (b"<?php 2**3", "Form(Power) at 7"),
        (b"<?php ...$a", "Form(Spread) at 6"),
        (b"<?php a^b", "Form(Bits) at 7"),
        (b"<?php a ??= b", "Form(Coalesce) at 8"),
        (b"<?php \\a", "Form(Namespace) at 6"),
        (b"<?php a \x01", "BadByte at 8"),
        (b"<?php \xc3", "BadByte at 6"),
        (b"<?php \"a", "OpenString at 6"),
        (b"<?php \"{$a \"", "OpenString at 11"),
    ];
    for (text, wanted) in rows {
        row(&rt, alloc, text, wanted)?;
    }
    Ok(())
}

#[test]
fn of_several_faults_the_first_counts(rt: HostRuntime) -> Result<(), Fail> {
    let alloc = rt.alloc();
    let rows: [(&[u8], &str); 16] = [
        (b"<?php 08.1", "Form(Float) at 6"),
        (b"<?php 08e1", "Form(Float) at 6"),
        (b"<?php 01.5", "Form(Float) at 6"),
        (b"<?php 09223372036854775808", "Form(Octal) at 6"),
        (b"<?php \"a\".5", "Form(Float) at 9"),
        (b"<?php a1.5", "Form(Float) at 8"),
        (b"<?php (real)1", "Form(Cast) at 6"),
        (b"<?php ( object )1", "Form(Cast) at 6"),
        (b"<?php (unset)1", "Form(Cast) at 6"),
        (b"<?php (Binary)1", "Form(Cast) at 6"),
        (b"<?php (\nint)", "ParenOpen;WORD;ParenClose;END;"),
        (b"<?php \"{$a 'x", "OpenString at 11"),
        (b"<?php \"{$a /* x", "OpenComment at 11"),
        (b"<?php \"{$a // }\"", "OpenString at 6"),
        (b"<?php \"{$a {", "OpenString at 6"),
        (b"<?php \"{$a \"{$b 'c", "OpenString at 16"),
    ];
    for (text, wanted) in rows {
        row(&rt, alloc, text, wanted)?;
    }
    Ok(())
}

#[test]
fn each_form_is_a_token(rt: HostRuntime) -> Result<(), Fail> {
    let alloc = rt.alloc();
    let rows: [(&[u8], &str); 30] = [
        (b"", "END;"),
        (b"a<?b<?ph", "INLINE;END;"),
        (b"<?php", "END;"),
        (b"<?PhP\n", "END;"),
        (b"<?php\r", "INLINE;END;"),
        (b"<?php\r\n1", "INT 1;END;"),
        (b"<?phpx", "INLINE;END;"),
        (b"x<?=$a?>\ny", "INLINE;ECHO;VAR;Semicolon;INLINE;END;"),
        (b"<?php ?>\r\n\n", "Semicolon;INLINE;END;"),
        (b"<?php ?>\r", "Semicolon;INLINE;END;"),
        (b"<?php #a?>b", "Semicolon;INLINE;END;"),
        (b"<?php //a\rb\nc", "WORD;END;"),
        (b"<?php /*?>*/ /**/ c", "WORD;END;"),
        (b"<?php $_a1 _B2", "VAR;WORD;END;"),
        (
            b"<?php 0 10 017 0x1F 0Xa 0b101 0B1",
            "INT 0;INT 10;INT 15;INT 31;INT 10;INT 5;INT 1;END;",
        ),
        (b"<?php 1e 0b12", "INT 1;WORD;INT 1;INT 2;END;"),
        (b"<?php 0x1.5", "Form(Float) at 9"),
        (b"<?php 1..2", "Form(Float) at 6"),
        (b"<?php 9223372036854775807", "INT 9223372036854775807;END;"),
        (b"<?php 9223372036854775808", "Form(Float) at 6"),
        (
            b"<?php 0x7fffffffffffffff 0777777777777777777777",
            "INT 9223372036854775807;INT 9223372036854775807;END;",
        ),
        (b"<?php 0x8000000000000000", "Form(Float) at 6"),
        (b"<?php 'a\\'b\\\\c\\n'", "TEXT a'b\\c\\n;END;"),
        (b"<?php \"a'b\" ''", "TEXT a'b;TEXT ;END;"),
        (b"<?php (int) ( INTEGER\t)", "CAST Int;CAST Int;END;"),
        (
            b"<?php (string)(Bool)(boolean)(array)",
            "CAST Text;CAST Bool;CAST Bool;CAST Array;END;",
        ),
        (b"<?php (double)", "Form(Cast) at 6"),
        (
            b"<?php (ints) (int",
            "ParenOpen;WORD;ParenClose;ParenOpen;WORD;END;",
        ),
        (b"<?php {$a}}", "BraceOpen;VAR;BraceClose;BraceClose;END;"),
        (b"<?php /*/", "OpenComment at 6"),
    ];
    for (text, wanted) in rows {
        row(&rt, alloc, text, wanted)?;
    }
    Ok(())
}

#[test]
fn the_longest_sign_is_taken(rt: HostRuntime) -> Result<(), Fail> {
    let alloc = rt.alloc();
    let rows: [(&[u8], &str); 5] = [
        (
            b"<?php === !== <=> == != <> <= >= && || ?? ++ -- += -= *= /= .= %= => -> ::",
            "Identical;NotIdentical;Spaceship;Equal;NotEqual;LessGreater;LessEqual;GreaterEqual;AndAnd;OrOr;Coalesce;PlusPlus;MinusMinus;PlusAssign;MinusAssign;StarAssign;SlashAssign;DotAssign;PercentAssign;DoubleArrow;Arrow;DoubleColon;END;",
        ),
        (
            b"<?php = < > ! + - * / % . ? : ; , ( ) [ ] { } & | @",
            "Assign;Less;Greater;Not;Plus;Minus;Star;Slash;Percent;Dot;Question;Colon;Semicolon;Comma;ParenOpen;ParenClose;BracketOpen;BracketClose;BraceOpen;BraceClose;Ampersand;Pipe;At;END;",
        ),
        (b"<?php &&=", "AndAnd;Assign;END;"),
        (b"<?php <?a", "Less;Question;WORD;END;"),
        (b"<?php a..b", "WORD;Dot;Dot;WORD;END;"),
    ];
    for (text, wanted) in rows {
        row(&rt, alloc, text, wanted)?;
    }
    let faults: [(&[u8], &str); 7] = [
        (b"<?php ~", "Form(Bits) at 6"),
        (b"<?php <<=", "Form(Bits) at 6"),
        (b"<?php >>", "Form(Bits) at 6"),
        (b"<?php &=", "Form(Bits) at 6"),
        (b"<?php |=", "Form(Bits) at 6"),
        (b"<?php ^=", "Form(Bits) at 6"),
        (b"<?php \x00", "BadByte at 6"),
    ];
    for (text, wanted) in faults {
        row(&rt, alloc, text, wanted)?;
    }
    Ok(())
}

#[test]
fn double_quoted_texts_have_escapes_and_parts(rt: HostRuntime) -> Result<(), Fail> {
    let alloc = rt.alloc();
    let rows: [(&[u8], &str); 19] = [
        (
            b"<?php \"\\n\\t\\r\\v\\e\\f\\\\\\$\\\"\"",
            "TEXT <10><9><13><11><27><12>\\$\";END;",
        ),
        (b"<?php \"\\1\\101\\400\\1018\"", "TEXT <1>A<0>A8;END;"),
        (
            b"<?php \"\\x4\\x41\\x414\\xg\\q\"",
            "TEXT <4>AA4\\xg\\q;END;",
        ),
        (
            b"<?php \"\\u{41}\\u{e9}\\u{20AC}\\u{10ffff}\\u41\"",
            "TEXT A<195><169><226><130><172><244><143><191><191>\\u41;END;",
        ),
        (b"<?php \"\\u{d800}\"", "TEXT <237><160><128>;END;"),
        (b"<?php \"\\u{}\"", "Form(Unicode) at 7"),
        (b"<?php \"\\u{12", "Form(Unicode) at 7"),
        (b"<?php \"a$b c\"", "QUOTE a|$b c;END;"),
        (
            b"<?php \"$a[b]$a[-12]$a[$c]\"",
            "QUOTE |i a b|i a -12|v a c;END;",
        ),
        (
            b"<?php \"$a->b->c $a-> $a- $ {\"",
            "QUOTE |p a b->c |$a-> |$a- $ {;END;",
        ),
        (b"<?php \"$a[0\"", "Form(Offset) at 10"),
        (b"<?php \"$a[$]\"", "Form(Offset) at 10"),
        (b"<?php \"$a[${b}]\"", "Form(Dollar) at 10"),
        (b"<?php \"$a[", "OpenString at 6"),
        (
            b"<?php \"{$a[\"b\"]}c\" d",
            "QUOTE |{}c;VAR;BracketOpen;TEXT b;BracketClose;BraceClose;WORD;END;",
        ),
        (
            b"<?php \"{$a{1}}{$b}\"",
            "QUOTE |{}|{};VAR;BraceOpen;INT 1;BraceClose;BraceClose;VAR;BraceClose;END;",
        ),
        (
            b"<?php \"{$a ?> x <?php }\"",
            "QUOTE |{};VAR;Semicolon;INLINE;BraceClose;END;",
        ),
        (b"<?php \"{$a ?> x", "OpenString at 6"),
        (b"<?php \"{$a 1.5", "Form(Float) at 11"),
    ];
    for (text, wanted) in rows {
        row(&rt, alloc, text, wanted)?;
    }
    Ok(())
}

/// `front`, then so many times `middle`, then `back`.
fn repeated(
    alloc: Global,
    front: &[u8],
    middle: &[u8],
    count: usize,
    back: &[u8],
) -> Result<Vec<u8>, Fail> {
    let mut text = Vec::from_slice(alloc, front)?;
    for _ in 0..count {
        text.extend_from_slice(middle)?;
    }
    text.extend_from_slice(back)?;
    Ok(text)
}

#[test]
fn limits_hold_at_both_ends(rt: HostRuntime) -> Result<(), Fail> {
    let alloc = rt.alloc();
    row(
        &rt,
        alloc,
        repeated(alloc, b"<?php ", b"a", 100, b"")?.as_slice(),
        "WORD;END;",
    )?;
    row(
        &rt,
        alloc,
        repeated(alloc, b"<?php ", b"a", 101, b"")?.as_slice(),
        "Form(Name) at 6",
    )?;
    row(
        &rt,
        alloc,
        repeated(alloc, b"<?php $", b"a", 100, b"")?.as_slice(),
        "VAR;END;",
    )?;
    row(
        &rt,
        alloc,
        repeated(alloc, b"<?php $", b"a", 101, b"")?.as_slice(),
        "Form(Name) at 7",
    )?;
    row(
        &rt,
        alloc,
        repeated(alloc, b"<?php \"$", b"a", 101, b"\"")?.as_slice(),
        "Form(Name) at 8",
    )?;
    row(
        &rt,
        alloc,
        repeated(alloc, b"<?php \"$b->", b"a", 101, b"\"")?.as_slice(),
        "Form(Name) at 11",
    )?;
    row(
        &rt,
        alloc,
        repeated(alloc, b"<?php \"$b[", b"a", 101, b"]\"")?.as_slice(),
        "Form(Name) at 10",
    )?;
    row(
        &rt,
        alloc,
        repeated(alloc, b"<?php \"$b[$", b"a", 101, b"]\"")?.as_slice(),
        "Form(Name) at 11",
    )?;
    let allowed = repeated(alloc, b"<?php ", b"\"{$a.", 199, b"\"\"")?;
    let allowed = repeated(alloc, allowed.as_slice(), b"}\"", 199, b"")?;
    assert!(rt; allowed.len() <= 1_048_576);
    let tokens = lex(alloc, allowed.as_slice());
    assert!(rt; tokens.is_ok());
    let outer = repeated(alloc, b"<?php ", b"\"{$a.", 200, b"\"\"")?;
    row(&rt, alloc, outer.as_slice(), "Form(Nesting) at 1006")?;
    let single = repeated(alloc, b"<?php ", b"\"{$a.", 200, b"'' 1.5")?;
    row(&rt, alloc, single.as_slice(), "Form(Float) at 1009")
}

#[test]
fn tokens_have_places_and_lines(rt: HostRuntime) -> Result<(), Fail> {
    let alloc = rt.alloc();
    let text = b"a\n<?php\n\"b\n{$c}\" /*\n*/ d";
    let tokens = lex(alloc, text)?;
    let list = tokens.as_slice();
    assert_eq!(rt; list.len(), 6);
    assert_eq!(rt; tokens.len(), 6);
    assert_eq!(rt; list[1].at, 8);
    assert_eq!(rt; list[1].line, 3);
    assert!(rt; list[1].text == b"\"b\n{$c}\"".as_slice());
    assert_eq!(rt; list[2].line, 4);
    assert_eq!(rt; list[2].at, 12);
    assert_eq!(rt; list[4].line, 5);
    assert!(rt; list[4].text == b"d".as_slice());
    assert_eq!(rt; list[5].at, 24);
    assert_eq!(rt; list[5].text.len(), 0);
    Ok(())
}

#[test]
fn lines_count_from_one(rt: HostRuntime) {
    assert_eq!(rt; line_of(b"", 0), 1);
    assert_eq!(rt; line_of(b"<?php\n1.5;", 6), 2);
    assert_eq!(rt; line_of(b"a\n\nb", 1), 1);
    assert_eq!(rt; line_of(b"a\n\nb", 3), 3);
    assert_eq!(rt; line_of(b"a\r\r\nb", 9), 2);
}
