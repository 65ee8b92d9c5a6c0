// A request that was read, and the checks over all of it.
ghost use Rattle.std.specs.Prelude.{◌≡◌, ◌≢◌, ◌≤◌, length, take, Err};
ghost use Rattle.request_map.specs.Checks.{finished};
ghost use Rattle.request_map.specs.Heads.{parsed_head};
ghost use Rattle.request_map.specs.Reading.{IsAnswer};
ghost use Rattle.reply_text.specs.Headers.{Header};

use crate::MAX_HEAD_BYTES;
use crate::checks::body_length;
use crate::fault::RequestFault;
use crate::head::{ParsedHead, parse_head};
use reply_text::HeaderLine;
use std::alloc::Global;
use std::marker::Model;

/// A request. Contracts see it as what its head tells, and its body.
#[derive(Debug, Drop)]
pub struct WebRequest {
    method: Vec<u8>,
    target: Vec<u8>,
    version: u8,
    headers: Vec<HeaderLine>,
    body: Vec<u8>,
}

impl Model for WebRequest {
    ghost use Rattle.request_map.specs.Requests.{Request};

    ghost Value = { Request };

    ghost view = { λ r. record { head = record { method = r.method.items; target = r.target.items; version = r.version; headers = r.headers.items }; body = r.body.items } };
}

impl WebRequest {
    pub fn method(&self) -> &[u8]
        ensures { result.now ≡ self.now.head.method }
    {
        &self.method
    }

    pub fn target(&self) -> &[u8]
        ensures { result.now ≡ self.now.head.target }
    {
        &self.target
    }

    /// 0 for HTTP/1.0 and 1 for HTTP/1.1.
    pub fn version(&self) -> u8
        ensures { result ≡ self.now.head.version }
    {
        self.version
    }

    /// All headers, in order.
    pub fn headers(&self) -> &[HeaderLine]
        ensures { result.now ≡ self.now.head.headers }
    {
        &self.headers
    }

    pub fn body(&self) -> &[u8]
        ensures { result.now ≡ self.now.body }
    {
        &self.body
    }
}

/// The last checks: that the body came whole, of which so many bytes were told, and that the target begins with `/`.
pub(crate) fn finish(
    head: ParsedHead,
    size: usize,
    body: Vec<u8>,
) -> Result<WebRequest, RequestFault>
    ensures { result ≡ finished (parsed_head head) size body.items }
{
    if body.len() < size {
        return Err(RequestFault::BadRequest);
    }
    let ParsedHead {
        method,
        target,
        version,
        headers,
        size: _,
    } = head;
    match target.as_slice() {
        [b'/', ..] => {}
        _ => return Err(RequestFault::BadRequest),
    }
    Ok(WebRequest {
        method,
        target,
        version,
        headers,
        body,
    })
}

// At most so many bytes from the front.
#[tactic(auto, using(std::proofs::lemmas::List::take_min))]
fn front_of(bytes: &[u8], most: usize) -> &[u8]
    ensures value { result.now ≡ take most bytes.now }
    ensures short { length result.now ≤ most }
    ensures within { length result.now ≤ length bytes.now }
{
    bytes.split_at(most.min(bytes.len())).0
}

/// The request that the bytes begin with. Bytes behind it are ignored.
pub fn request_of(alloc: Global, bytes: &[u8]) -> Result<WebRequest, RequestFault>
    ensures { result ≢ Err RequestFault.Memory → IsAnswer bytes.now result }
{
    let head = parse_head(alloc, front_of(bytes, MAX_HEAD_BYTES))?;
    let size = body_length(&head)?;
    let rest = bytes.split_at(head.size).1;
    let body = Vec::from_slice(alloc, front_of(rest, size))?;
    let request = finish(head, size, body)?;
    Ok(request)
}
