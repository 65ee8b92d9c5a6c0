// The reply with a static file.
ghost use Rattle.std.specs.Prelude.{◌≡◌, IfOk};
ghost use Rattle.reply_text.specs.Replies.{static_type, static_head};

use crate::head::{append_back, append_front};
use std::alloc::{AllocError, Global};

fn static_type(path: &[u8]) -> &'static [u8]
    ensures { result.now ≡ static_type path.now }
{
    if path.ends_with(b".html") {
        return b"text/html; charset=UTF-8";
    }
    if path.ends_with(b".css") {
        return b"text/css";
    }
    if path.ends_with(b".js") {
        return b"application/javascript";
    }
    if path.ends_with(b".txt") {
        return b"text/plain; charset=UTF-8";
    }
    if path.ends_with(b".png") {
        return b"image/png";
    }
    if path.ends_with(b".jpg") {
        return b"image/jpeg";
    }
    if path.ends_with(b".svg") {
        return b"image/svg+xml";
    }
    b"application/octet-stream"
}

/// The head of the reply with a static file of so many bytes. The file's bytes follow it, but for HEAD.
pub fn static_head(alloc: Global, path: &str, body_length: usize) -> Result<Vec<u8>, AllocError>
    ensures { IfOk result (λ bytes. bytes.items ≡ static_head path.now body_length) }
{
    let mut bytes = Vec::with_capacity(alloc, 256)?;
    append_front(&mut bytes, 200, static_type(path.as_bytes()))?;
    append_back(&mut bytes, body_length)?;
    Ok(bytes)
}
