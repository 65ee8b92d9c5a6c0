//! The loads.
use crate::plan::{Plan, Work};
use less_outside::LinkMem;
use reply_text::{ScriptEnd, ScriptRun, reply_bytes};
use request_map::{read_request, request_of};
use script_input::script_input;
use std::alloc::{AllocError, Global};

fn head_of(alloc: Global, headers: u32) -> Result<Vec<u8>, AllocError> {
    let mut bytes = Vec::from_slice(alloc, b"GET /index.php?a=1 HTTP/1.1\r\nHost: localhost\r\n")?;
    for _ in 0..headers {
        bytes.extend_from_slice(b"Accept: text/html\r\n")?;
    }
    bytes.extend_from_slice(b"\r\n")?;
    Ok(bytes)
}

fn post_of(alloc: Global, size: u32) -> Result<Vec<u8>, AllocError> {
    let head = format!(in alloc; "POST / HTTP/1.0\r\nContent-Length: {}\r\n\r\n", size)?;
    let mut bytes = Vec::from_slice(alloc, head.as_bytes())?;
    for _ in 0..size {
        bytes.push(b'x')?;
    }
    Ok(bytes)
}

// A form of so many pairs of different names.
fn form_of(alloc: Global, pairs: u32) -> Result<Vec<u8>, AllocError> {
    let mut form = String::new(alloc);
    for pair in 0..pairs {
        let text = format!(in alloc; "name{pair}=the+value+of+a+field&")?;
        form.push_str(text.as_str())?;
    }
    let head = format!(in alloc;
        "POST / HTTP/1.0\r\nContent-Type: application/x-www-form-urlencoded\r\nContent-Length: {}\r\n\r\n",
        form.len()
    )?;
    let mut bytes = Vec::from_slice(alloc, head.as_bytes())?;
    bytes.extend_from_slice(form.as_bytes())?;
    Ok(bytes)
}

fn of_bytes(alloc: Global, bytes: &[u8], times: u32) -> u64 {
    let mut count = 0u64;
    for _ in 0..times {
        if request_of(alloc, bytes).is_ok() {
            count = count.wrapping_add(1);
        }
    }
    count
}

fn of_links(alloc: Global, bytes: &[u8], plan: &Plan) -> Result<u64, AllocError> {
    let piece = (plan.piece as usize).max(1);
    let mut count = 0u64;
    for _ in 0..plan.times {
        let input = Vec::from_slice(alloc, bytes)?;
        let mut link = LinkMem::new(alloc, input, piece, 0, Vec::new(alloc))?;
        if read_request(alloc, &mut link).is_ok() {
            count = count.wrapping_add(1);
        }
    }
    Ok(count)
}

// Forms whose pairs all stand in `$_POST`.
fn of_forms(alloc: Global, bytes: &[u8], plan: &Plan) -> Result<u64, AllocError> {
    let Ok(request) = request_of(alloc, bytes) else {
        return Ok(0);
    };
    let mut count = 0u64;
    for _ in 0..plan.times {
        let input = script_input(alloc, &request, "index.php", 0)?;
        if input.post.map.len() == plan.size as usize {
            count = count.wrapping_add(1);
        }
    }
    Ok(count)
}

fn of_replies(alloc: Global, plan: &Plan) -> Result<u64, AllocError> {
    let output = post_of(alloc, plan.size)?;
    let run = ScriptRun {
        status: 200,
        headers: &[],
        output: output.as_slice(),
        end: ScriptEnd::Done,
    };
    let mut count = 0u64;
    for _ in 0..plan.times {
        let bytes = reply_bytes(alloc, &run, None, false)?;
        if !bytes.is_empty() {
            count = count.wrapping_add(1);
        }
    }
    Ok(count)
}

/// Does a load, and counts what was answered.
pub fn run(alloc: Global, plan: &Plan) -> Result<u64, AllocError> {
    match plan.work {
        Work::Heads => {
            let bytes = head_of(alloc, plan.size)?;
            Ok(of_bytes(alloc, &bytes, plan.times))
        }
        Work::Link => {
            let bytes = head_of(alloc, plan.size)?;
            let count = of_links(alloc, &bytes, plan)?;
            Ok(count)
        }
        Work::Body => {
            let bytes = post_of(alloc, plan.size)?;
            let count = of_links(alloc, &bytes, plan)?;
            Ok(count)
        }
        Work::Form => {
            let bytes = form_of(alloc, plan.size)?;
            let count = of_forms(alloc, &bytes, plan)?;
            Ok(count)
        }
        Work::Reply => {
            let count = of_replies(alloc, plan)?;
            Ok(count)
        }
    }
}
