// The head of a request, as httparse reads it.
ghost use Rattle.std.specs.Prelude.{◌≡◌, ◌≢◌, ◌≤◌, length, take, map, All, IfOk, IfErr, IfSome, IfNone};
ghost use Rattle.httparse.specs.Spans.{IsHeaderWithin, header_bytes};
ghost use Rattle.request_map.specs.Heads.{HasNoHead, IsParsed, header_of};
ghost use Rattle.request_map.specs.Found.{IsFound};

use crate::fault::RequestFault;
use crate::{MAX_HEAD_BYTES, MAX_HEADERS};
use httparse::Status;
use httparse::spans::{EMPTY_HEADER_SPAN, HeaderSpan, RequestSpans, parse_request};
use reply_text::HeaderLine;
use std::alloc::{AllocError, Global};

/// What a head tells, and how many bytes it has.
#[derive(Debug, Drop)]
pub struct ParsedHead {
    pub method: Vec<u8>,
    pub target: Vec<u8>,
    pub version: u8,
    pub headers: Vec<HeaderLine>,
    pub size: usize,
}

// Where the parts of the head are that the bytes begin with.
fn find_head(bytes: &[u8], headers: &mut [HeaderSpan]) -> Option<RequestSpans>
    requires short { length bytes.now ≤ MAX_HEAD_BYTES }
    requires room { length headers.old ≡ MAX_HEADERS }
    ensures found { IfSome result (IsFound bytes.now headers.new) }
    ensures none { IfNone result (HasNoHead bytes.now) }
{
    match parse_request(bytes, headers) {
        Ok(Status::Complete(spans)) => Some(spans),
        Ok(Status::Partial) => None,
        Err(_) => None,
    }
}

fn header_at(alloc: Global, bytes: &[u8], span: &HeaderSpan) -> Result<HeaderLine, AllocError>
    requires { IsHeaderWithin (length bytes.now) span.now }
    ensures { IfOk result (λ line. line ≡ header_of (header_bytes bytes.now span.now)) }
{
    let name = Vec::from_slice(alloc, span.name.of(bytes))?;
    let value = Vec::from_slice(alloc, span.value.of(bytes))?;
    Ok(HeaderLine::new(name, value))
}

fn headers_at(
    alloc: Global,
    bytes: &[u8],
    spans: &[HeaderSpan],
) -> Result<Vec<HeaderLine>, AllocError>
    requires { All (IsHeaderWithin (length bytes.now)) spans.now }
    ensures { IfOk result (λ lines. lines.items ≡ map header_of (map (header_bytes bytes.now) spans.now)) }
{
    let mut lines = Vec::with_capacity(alloc, spans.len())?;
    for span in spans {
        let line = header_at(alloc, bytes, span)?;
        lines.push(line)?;
    }
    Ok(lines)
}

/// The head that the bytes begin with; `BadRequest` where they begin with none.
pub fn parse_head(alloc: Global, bytes: &[u8]) -> Result<ParsedHead, RequestFault>
    requires { length bytes.now ≤ MAX_HEAD_BYTES }
    ensures parsed { IfOk result (IsParsed bytes.now) }
    ensures within { IfOk result (λ parsed. parsed.size ≤ length bytes.now) }
    ensures none { IfErr result (λ fault. fault ≢ RequestFault.Memory → (fault ≡ RequestFault.BadRequest) × HasNoHead bytes.now) }
{
    let mut spans = [EMPTY_HEADER_SPAN; MAX_HEADERS];
    let Some(found) = find_head(bytes, &mut spans) else {
        return Err(RequestFault::BadRequest);
    };
    let method = Vec::from_slice(alloc, found.method.of(bytes))?;
    let target = Vec::from_slice(alloc, found.path.of(bytes))?;
    let headers = headers_at(alloc, bytes, &spans[..found.headers])?;
    Ok(ParsedHead {
        method,
        target,
        version: found.version,
        headers,
        size: found.len,
    })
}
