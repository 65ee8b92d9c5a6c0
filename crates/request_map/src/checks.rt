// The checks over a head, and over the body and the target.
ghost use Rattle.std.specs.Prelude.{◌≡◌, true, codes};
ghost use Rattle.std.specs.List.{list_all, list_any, find};
ghost use Rattle.std.specs.Option.{option_map};
ghost use Rattle.std.specs.Char.{is_ascii_digit};
ghost use Rattle.std.specs.Str.Parse.{digits_value};
ghost use Rattle.reply_text.specs.Headers.{is_named};
ghost use Rattle.request_map.specs.Heads.{parsed_head};
ghost use Rattle.request_map.specs.Checks as spec;

use crate::MAX_BODY_BYTES;
use crate::fault::RequestFault;
use crate::head::ParsedHead;
use reply_text::HeaderLine;

fn is_method(method: &[u8]) -> bool
    ensures { result ≡ spec.is_method method.now }
{
    method == b"GET".as_slice() || method == b"HEAD".as_slice() || method == b"POST".as_slice()
}

fn has_coding(headers: &[HeaderLine]) -> bool
    ensures { result ≡ list_any (is_named (codes "transfer-encoding")) headers.now }
{
    headers
        .iter()
        .any(|header| header.is_named(b"transfer-encoding"))
}

fn is_implemented(head: &ParsedHead) -> bool
    ensures { result ≡ spec.is_implemented (parsed_head head.now) }
{
    if !is_method(&head.method) {
        return false;
    }
    !has_coding(&head.headers)
}

fn count_named(headers: &[HeaderLine], name: &[u8]) -> usize
    ensures { result ≡ spec.count_named name.now headers.now }
{
    headers
        .iter()
        .filter(|header| header.is_named(name))
        .count()
}

fn is_hosted(head: &ParsedHead) -> bool
    ensures { result ≡ spec.is_hosted (parsed_head head.now) }
{
    head.version == 0 || count_named(&head.headers, b"host") == 1
}

fn are_digits(text: &[u8]) -> bool
    ensures { result ≡ list_all is_ascii_digit text.now }
{
    text.iter().all(|byte| byte.is_ascii_digit())
}

fn is_length(text: &[u8]) -> bool
    ensures { result ≡ spec.is_length text.now }
{
    if text.is_empty() || text.len() > 18 {
        return false;
    }
    are_digits(text)
}

#[tactic(auto, using(crate::proofs::Lengths::read_digit, crate::proofs::Lengths::read_more, crate::proofs::Lengths::passes))]
// The number that digits write, or a refusal where it is above the limit of a body.
fn length_within(digits: &[u8]) -> Result<usize, RequestFault>
    requires { list_all is_ascii_digit digits.now ≡ true }
    ensures { result ≡ spec.length_within (digits_value 10 digits.now) }
{
    let mut size: usize = 0;
    for &byte in digits {
        size = size * 10 + (byte - b'0') as usize;
        if size > MAX_BODY_BYTES {
            return Err(RequestFault::TooLarge);
        }
    }
    Ok(size)
}

fn length_of(text: &[u8]) -> Result<usize, RequestFault>
    ensures { result ≡ spec.length_of text.now }
{
    if !is_length(text) {
        return Err(RequestFault::BadRequest);
    }
    let size = length_within(text)?;
    Ok(size)
}

fn first_named<'h>(headers: &'h [HeaderLine], name: &[u8]) -> Option<&'h HeaderLine>
    ensures { option_map (λ header. header.now) result ≡ find (is_named name.now) headers.now }
{
    headers.iter().find(|header| header.is_named(name))
}

fn length_among(post: bool, headers: &[HeaderLine]) -> Result<usize, RequestFault>
    ensures { result ≡ spec.length_among post headers.now }
{
    if count_named(headers, b"content-length") > 1 {
        return Err(RequestFault::BadRequest);
    }
    let Some(header) = first_named(headers, b"content-length") else {
        if post {
            return Err(RequestFault::NoLength);
        }
        return Ok(0);
    };
    let size = length_of(header.value())?;
    Ok(size)
}

/// How long the body is that belongs to a head, in bytes, or the first refusal.
pub fn body_length(head: &ParsedHead) -> Result<usize, RequestFault>
    ensures { result ≡ spec.body_length (parsed_head head.now) }
{
    if !is_implemented(head) {
        return Err(RequestFault::NotImplemented);
    }
    if !is_hosted(head) {
        return Err(RequestFault::BadRequest);
    }
    let post = head.method.as_slice() == b"POST".as_slice();
    let size = length_among(post, &head.headers)?;
    Ok(size)
}
