// Requests that are read of a link. Not a byte is taken behind the request, so the head is read byte by byte: over a
// stream of the system put a buffered reader under the link.
ghost use Rattle.std.specs.Prelude.{◌≡◌, ◌≤◌, length, take, OnOk, OnErr, IfOk, IfErr, IsErrOf};
ghost use Rattle.std.specs.Io.KnownBytes.{Consumes};
ghost use Rattle.less_terms.specs.Causes.{Rose};
ghost use Rattle.request_map.specs.Reading.{HasRead, HasReadHead, HasReadBody, HasNext, IsFilled, IsOutside, OnlyReads};

use crate::MAX_HEAD_BYTES;
use crate::checks::body_length;
use crate::fault::RequestFault;
use crate::head::parse_head;
use crate::request::{WebRequest, finish};
use crate::scan::Scan;
use less_outside::{Link, OutsideFault};
use std::alloc::Global;

// The next byte, or nothing at the end of the input.
#[tactic(auto, using(crate::proofs::Links::one_byte, crate::proofs::Links::no_byte))]
fn next_byte<L: Link>(link: &mut L) -> Result<Option<u8>, OutsideFault>
    ensures next { IfOk result (HasNext (L.left link.old) (L.left link.new)) }
    ensures cause { OnErr result (Rose (L.read_count link.old) (L.read_count link.new)) }
    ensures only { OnlyReads (L.read_count link.old) (L.read_count link.new) (L.sent link.old) (L.sent link.new) (L.write_count link.old) (L.write_count link.new) }
{
    let mut room = [0u8; 1];
    let count = link.read(&mut room)?;
    if count == 0 {
        return Ok(None);
    }
    Ok(Some(room[0]))
}

// The bytes in which a head is sought: up to its end, to the limit, or to the end of the input.
fn read_head<L: Link>(alloc: Global, link: &mut L) -> Result<Vec<u8>, RequestFault>
    ensures read { IfOk result (λ bytes. HasReadHead (L.left link.old) (L.left link.new) bytes.items) }
    ensures short { IfOk result (λ bytes. length bytes.items ≤ MAX_HEAD_BYTES) }
    ensures kinds { IfErr result IsOutside }
    ensures cause { IsErrOf result RequestFault.Link → Rose (L.read_count link.old) (L.read_count link.new) }
    ensures only { OnlyReads (L.read_count link.old) (L.read_count link.new) (L.sent link.old) (L.sent link.new) (L.write_count link.old) (L.write_count link.new) }
{
    let mut bytes = Vec::new(alloc);
    let mut scan = Scan::Blank;
    'head: for _ in 0..MAX_HEAD_BYTES {
        let next = next_byte(link)?;
        let byte = match next {
            Some(byte) => byte,
            None => return Ok(bytes),
        };
        bytes.push(byte)?;
        scan = scan.after(byte);
        if scan.is_ended() {
            return Ok(bytes);
        }
    }
    Ok(bytes)
}

// Fills the room, up to the end of the input, and answers how many bytes came.
fn fill<L: Link>(link: &mut L, room: &mut [u8]) -> Result<usize, OutsideFault>
    ensures within { IfOk result (λ count. count ≤ length room.old) }
    ensures taken { IfOk result (λ count. Consumes (L.left link.old) (L.left link.new) (take count room.new)) }
    ensures full { IfOk result (IsFilled (L.left link.old) (L.left link.new) (length room.old)) }
    ensures cause { OnErr result (Rose (L.read_count link.old) (L.read_count link.new)) }
    ensures only { OnlyReads (L.read_count link.old) (L.read_count link.new) (L.sent link.old) (L.sent link.new) (L.write_count link.old) (L.write_count link.new) }
{
    let mut at = 0;
    while at < room.len() {
        let count = link.read(&mut room[at..])?;
        if count == 0 {
            return Ok(at);
        }
        at += count;
    }
    Ok(at)
}

// So many bytes, or all that are left.
fn read_body<L: Link>(alloc: Global, link: &mut L, size: usize) -> Result<Vec<u8>, RequestFault>
    ensures read { IfOk result (λ body. HasReadBody size (L.left link.old) (L.left link.new) body.items) }
    ensures kinds { IfErr result IsOutside }
    ensures cause { IsErrOf result RequestFault.Link → Rose (L.read_count link.old) (L.read_count link.new) }
    ensures only { OnlyReads (L.read_count link.old) (L.read_count link.new) (L.sent link.old) (L.sent link.new) (L.write_count link.old) (L.write_count link.new) }
{
    let mut body = vec![in alloc; 0u8; size]?;
    let count = fill(link, body.as_mut_slice())?;
    body.truncate(count);
    Ok(body)
}

/// Reads a request of a link: what a link that tells gives is the answer of `request_of` for what was left. A byte behind
/// the request is not taken. `Link` comes only where the count of the link's reads rose.
pub fn read_request<L: Link>(alloc: Global, link: &mut L) -> Result<WebRequest, RequestFault>
    ensures read { HasRead (L.left link.old) (L.left link.new) result }
    ensures cause { IsErrOf result RequestFault.Link → Rose (L.read_count link.old) (L.read_count link.new) }
    ensures only { OnlyReads (L.read_count link.old) (L.read_count link.new) (L.sent link.old) (L.sent link.new) (L.write_count link.old) (L.write_count link.new) }
{
    let bytes = read_head(alloc, link)?;
    let head = parse_head(alloc, &bytes)?;
    let size = body_length(&head)?;
    let body = read_body(alloc, link, size)?;
    let request = finish(head, size, body)?;
    Ok(request)
}
