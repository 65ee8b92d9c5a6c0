// The head of a reply, in two parts.
ghost use Rattle.std.specs.Prelude.{◌≡◌, ◌++◌, OnOk};
ghost use Rattle.reply_text.specs.Replies.{phrase_of, head_front, head_back};

use http::StatusCode;
use itoa::Buffer;
use std::alloc::AllocError;

fn phrase_of(code: u16) -> &'static str
    ensures { result.now ≡ phrase_of code }
{
    match StatusCode::from_u16(code) {
        Ok(status) => match status.canonical_reason() {
            Some(phrase) => phrase,
            None => "Status",
        },
        Err(_) => "Status",
    }
}

#[tactic(auto, unfolding(crate::specs::Replies::head_front))]
/// Appends the status line and the content type.
pub(crate) fn append_front(
    out: &mut Vec<u8>,
    code: u16,
    content_type: &[u8],
) -> Result<(), AllocError>
    ensures { OnOk result (out.new.items ≡ out.old.items ++ head_front code content_type.now) }
{
    let mut digits = Buffer::new();
    out.extend_from_slice(b"HTTP/1.1 ")?;
    out.extend_from_slice(digits.format(code).as_bytes())?;
    out.extend_from_slice(b" ")?;
    out.extend_from_slice(phrase_of(code).as_bytes())?;
    out.extend_from_slice(b"\r\nContent-Type: ")?;
    out.extend_from_slice(content_type)?;
    out.extend_from_slice(b"\r\n")?;
    Ok(())
}

#[tactic(auto, unfolding(crate::specs::Replies::head_back))]
/// Appends the length of the body in bytes, that the connection ends, and the empty line.
pub(crate) fn append_back(out: &mut Vec<u8>, body_length: usize) -> Result<(), AllocError>
    ensures { OnOk result (out.new.items ≡ out.old.items ++ head_back body_length) }
{
    let mut digits = Buffer::new();
    out.extend_from_slice(b"Content-Length: ")?;
    out.extend_from_slice(digits.format(body_length).as_bytes())?;
    out.extend_from_slice(b"\r\nConnection: close\r\n\r\n")?;
    Ok(())
}
