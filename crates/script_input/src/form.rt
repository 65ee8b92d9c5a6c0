// Which bodies are forms.
ghost use Rattle.std.specs.Prelude.{◌≡◌, ◌≤◌, length, codes};
ghost use Rattle.std.specs.List.{before_first, position_or_len, find};
ghost use Rattle.std.specs.Option.{option_map};
ghost use Rattle.reply_text.specs.Headers.{is_named};
ghost use Rattle.script_input.specs.Forms as spec;

use reply_text::HeaderLine;

fn is_blank(byte: u8) -> bool
    ensures { result ≡ spec.is_blank byte }
{
    byte == b' ' || byte == b'\t'
}

fn without_end(text: &[u8]) -> &[u8]
    ensures { result.now ≡ spec.without_end text.now }
{
    let mut len = text.len();
    while len > 0 {
        if !is_blank(text[len - 1]) {
            return text.split_at(len).0;
        }
        len -= 1;
    }
    text.split_at(0).0
}

fn semicolon_at(value: &[u8]) -> usize
    ensures place { result ≡ position_or_len spec.is_semicolon value.now }
    ensures within { result ≤ length value.now }
{
    match value.iter().position(|byte| *byte == b';') {
        Some(place) => place,
        None => value.len(),
    }
}

fn before_semicolon(value: &[u8]) -> &[u8]
    ensures { result.now ≡ before_first spec.is_semicolon value.now }
{
    value.split_at(semicolon_at(value)).0
}

fn is_form_type(value: &[u8]) -> bool
    ensures { result ≡ spec.is_form_type value.now }
{
    without_end(before_semicolon(value)).eq_ignore_ascii_case(b"application/x-www-form-urlencoded")
}

/// The first header of a name.
pub fn first_named<'h>(headers: &'h [HeaderLine], name: &[u8]) -> Option<&'h HeaderLine>
    ensures { option_map (λ header. header.now) result ≡ find (is_named name.now) headers.now }
{
    headers.iter().find(|header| header.is_named(name))
}

/// Whether headers tell that the body is a form.
pub fn is_form(headers: &[HeaderLine]) -> bool
    ensures { result ≡ spec.is_form headers.now }
{
    match first_named(headers, b"content-type") {
        Some(header) => is_form_type(header.value()),
        None => false,
    }
}
