// The word `less_removed`, and the placeholders of a copy in their exact form.
ghost use Rattle.std.specs.Prelude.{◌≡◌, List, ◌∷◌, ◌++◌, IfOk, OnOk, map};
ghost use Rattle.std.specs.Option.{option_map};
ghost use Rattle.php_lexer.specs.Marks.{mark_of};
ghost use Rattle.app_load.specs.Copies as copies;
ghost use Rattle.app_load.specs.Stubs as spec;

use php_lexer::{Kind, Token};
use php_tree::file::{FunSpan, Span};
use std::alloc::{AllocError, Global};

fn is_word(kind: &Kind) -> bool
    ensures { result ≡ spec.is_word kind.now }
{
    matches!(kind, Kind::Word)
}

/// Whether a token is the word `less_removed`, in any case of its letters.
pub fn is_reserved(token: &Token<'_>) -> bool
    ensures { result ≡ spec.is_reserved (mark_of token.now) }
{
    is_word(&token.kind) && token.text.eq_ignore_ascii_case(b"less_removed")
}

/// The first such word.
pub fn first_reserved<'a, 't>(tokens: &'a [Token<'t>]) -> Option<&'a Token<'t>>
    ensures { option_map (λ token. mark_of token.now) result ≡ spec.first_reserved (map mark_of tokens.now) }
{
    for token in tokens {
        if is_reserved(token) {
            return Some(token);
        }
    }
    None
}

// The bytes of a span.
fn span_text(text: &[u8], span: Span) -> &[u8]
    ensures { result.now ≡ copies.span_text text.now span }
{
    let from = span.from as usize;
    let past = span.to as usize + 1;
    if from >= text.len() || from >= past {
        return b"";
    }
    let rest = text.split_at(from).1;
    let len = past - from;
    if len >= rest.len() {
        return rest;
    }
    rest.split_at(len).0
}

fn stub_front(alloc: Global, path: &[u8], name: &[u8]) -> Result<Vec<u8>, AllocError>
    ensures { IfOk result (λ front. front.items ≡ copies.stub_front path.now name.now) }
{
    let mut front = Vec::from_slice(alloc, b"{less_removed('function','")?;
    front.extend_from_slice(path)?;
    front.extend_from_slice(b"','")?;
    front.extend_from_slice(name)?;
    front.extend_from_slice(b"');")?;
    Ok(front)
}

fn file_stub(alloc: Global, path: &[u8]) -> Result<Vec<u8>, AllocError>
    ensures { IfOk result (λ stub. stub.items ≡ copies.file_stub path.now) }
{
    let mut stub = Vec::from_slice(alloc, b"<?php less_removed('file','")?;
    stub.extend_from_slice(path)?;
    stub.extend_from_slice(b"');\n")?;
    Ok(stub)
}

// Whether only line ends and the closing brace are left.
fn is_stub_end(text: &[u8]) -> bool
    ensures { result ≡ spec.is_stub_end text.now }
{
    let mut rest = text;
    while let [first, more @ ..] = rest {
        if more.is_empty() {
            return *first == b'}';
        }
        if *first != b'\n' {
            return false;
        }
        rest = more;
    }
    false
}

// Whether a body is the placeholder of its function.
fn is_stub(alloc: Global, path: &[u8], name: &[u8], body: &[u8]) -> Result<bool, AllocError>
    ensures { IfOk result (λ is. is ≡ spec.is_stub path.now name.now body.now) }
{
    let front = stub_front(alloc, path, name)?;
    if !body.starts_with(&front) {
        return Ok(false);
    }
    Ok(is_stub_end(body.split_at(front.len()).1))
}

// Puts the place of the word in a function's placeholder behind the others, where its body is one.
fn note_place(
    alloc: Global,
    places: &mut Vec<u64>,
    path: &[u8],
    text: &[u8],
    function: &FunSpan,
) -> Result<(), AllocError>
    ensures { OnOk result ((rest : List FunSpan) → places.new.items ++ spec.stub_places path.now text.now rest ≡ places.old.items ++ spec.stub_places path.now text.now (function.now ∷ rest)) }
{
    let body = span_text(text, function.span);
    if !is_stub(alloc, path, function.name.as_slice(), body)? {
        return Ok(());
    }
    places.push(function.span.from as u64 + 1)?;
    Ok(())
}

fn stub_places(
    alloc: Global,
    path: &[u8],
    text: &[u8],
    functions: &[FunSpan],
) -> Result<Vec<u64>, AllocError>
    ensures { IfOk result (λ places. places.items ≡ spec.stub_places path.now text.now functions.now) }
{
    let mut places = Vec::new(alloc);
    for function in functions {
        note_place(alloc, &mut places, path, text, function)?;
    }
    Ok(places)
}

/// The places of the word in the placeholders of a file, in text order.
pub fn placeholders(
    alloc: Global,
    path: &[u8],
    text: &[u8],
    functions: &[FunSpan],
) -> Result<Vec<u64>, AllocError>
    ensures { IfOk result (λ places. places.items ≡ spec.placeholders path.now text.now functions.now) }
{
    let stub = file_stub(alloc, path)?;
    if text == stub.as_slice() {
        let mut places = Vec::new(alloc);
        places.push(6)?;
        return Ok(places);
    }
    let places = stub_places(alloc, path, text, functions)?;
    Ok(places)
}

/// The line of the first such word that does not stand in a placeholder.
pub fn first_stray(places: &[u64], tokens: &[Token<'_>]) -> Option<u32>
    ensures { result ≡ option_map (λ m. m.line) (spec.first_stray places.now (map mark_of tokens.now)) }
{
    let mut left = places;
    for token in tokens {
        if is_reserved(token) {
            match left {
                [place, more @ ..] if *place == token.at as u64 => left = more,
                _ => return Some(token.line),
            }
        }
    }
    None
}
