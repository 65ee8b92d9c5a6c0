use super::*;
use std::alloc::Global;
use std::test::Fail;

fn header(alloc: Global, name: &[u8], value: &[u8]) -> Result<HeaderLine, Fail> {
    Ok(HeaderLine::new(
        Vec::from_slice(alloc, name)?,
        Vec::from_slice(alloc, value)?,
    ))
}

fn plain<'r>(output: &'r [u8], end: ScriptEnd<'r>) -> ScriptRun<'r> {
    ScriptRun {
        status: 200,
        headers: &[],
        output,
        end,
    }
}

#[test]
fn a_page_is_answered_with_its_output(rt: HostRuntime) -> Result<(), Fail> {
    let run = plain(b"Hi x!", ScriptEnd::Done);
    let bytes = reply_bytes(rt.alloc(), &run, None, false)?;
    assert_eq!(rt;
        bytes.as_slice(),
        b"HTTP/1.1 200 OK\r\nContent-Type: text/html; charset=UTF-8\r\nContent-Length: 5\r\nConnection: close\r\n\r\nHi x!".as_slice()
    );
    Ok(())
}

#[test]
fn a_removed_part_is_told_after_the_output_and_with_the_cookie(
    rt: HostRuntime,
) -> Result<(), Fail> {
    let run = plain(b"out", ScriptEnd::Removed);
    let cookie = "0000000000000000000000000000000001";
    let bytes = reply_bytes(rt.alloc(), &run, Some(cookie), false)?;
    assert_eq!(rt;
        bytes.as_slice(),
        b"HTTP/1.1 403 Forbidden\r\nContent-Type: text/html; charset=UTF-8\r\nSet-Cookie: PHPSESSID=0000000000000000000000000000000001; path=/\r\nX-Less: removed\r\nContent-Length: 57\r\nConnection: close\r\n\r\nout<p>This part of the application has been removed.</p>\n".as_slice()
    );
    Ok(())
}

#[test]
fn a_fatal_end_is_told_with_its_place_and_a_budget_without(rt: HostRuntime) -> Result<(), Fail> {
    let end = ScriptEnd::Fatal {
        name: "float",
        file: "index.php",
        line: 1,
    };
    let bytes = reply_bytes(rt.alloc(), &plain(b"TTT", end), None, false)?;
    assert_eq!(rt;
        bytes.as_slice(),
        b"HTTP/1.1 500 Internal Server Error\r\nContent-Type: text/html; charset=UTF-8\r\nX-Less: fatal float index.php:1\r\nContent-Length: 3\r\nConnection: close\r\n\r\nTTT".as_slice()
    );
    let bytes = reply_bytes(rt.alloc(), &plain(b"", ScriptEnd::Budget), None, false)?;
    assert_eq!(rt;
        bytes.as_slice(),
        b"HTTP/1.1 503 Service Unavailable\r\nContent-Type: text/html; charset=UTF-8\r\nX-Less: budget\r\nContent-Length: 0\r\nConnection: close\r\n\r\n".as_slice()
    );
    Ok(())
}

#[test]
fn headers_of_a_script_stand_in_order_but_for_those_of_the_reply(
    rt: HostRuntime,
) -> Result<(), Fail> {
    let alloc = rt.alloc();
    let headers = [
        header(alloc, b"content-type", b"text/plain")?,
        header(alloc, b"Location", b"/a")?,
        header(alloc, b"CONTENT-LENGTH", b"7")?,
        header(alloc, b"Content-Type", b"text/css")?,
        header(alloc, b"X-A", b"")?,
    ];
    let run = ScriptRun {
        status: 302,
        headers: &headers,
        output: b"m",
        end: ScriptEnd::Done,
    };
    let bytes = reply_bytes(alloc, &run, None, false)?;
    assert_eq!(rt;
        bytes.as_slice(),
        b"HTTP/1.1 302 Found\r\nContent-Type: text/css\r\nLocation: /a\r\nX-A: \r\nContent-Length: 1\r\nConnection: close\r\n\r\nm".as_slice()
    );
    let bytes = reply_bytes(alloc, &ScriptRun { status: 299, ..run }, None, true)?;
    assert_eq!(rt;
        bytes.as_slice(),
        b"HTTP/1.1 299 Status\r\nContent-Type: text/css\r\nLocation: /a\r\nX-A: \r\nContent-Length: 1\r\nConnection: close\r\n\r\n".as_slice()
    );
    Ok(())
}

#[test]
fn fixed_replies_keep_their_body_for_head_where_the_method_is_not_known(
    rt: HostRuntime,
) -> Result<(), Fail> {
    let lost =
        b"HTTP/1.1 404 Not Found\r\nContent-Type: text/plain; charset=UTF-8\r\nX-Less: request\r\nContent-Length: 14\r\nConnection: close\r\n\r\n".as_slice();
    assert_eq!(rt; fixed_reply(FixedEnd::NotFound, true), lost);
    assert_eq!(rt;
        fixed_reply(FixedEnd::NotFound, false).len(),
        lost.len() + 14
    );
    let full =
        b"HTTP/1.1 507 Insufficient Storage\r\nContent-Type: text/plain; charset=UTF-8\r\nX-Less: memory\r\nContent-Length: 25\r\nConnection: close\r\n\r\n507 Insufficient Storage\n".as_slice();
    assert_eq!(rt; fixed_reply(FixedEnd::Memory, true), full);
    assert_eq!(rt;
        fixed_reply(FixedEnd::BadRequest, true),
        fixed_reply(FixedEnd::BadRequest, false)
    );
    Ok(())
}

#[test]
fn static_files_are_typed_by_the_end_of_their_path(rt: HostRuntime) -> Result<(), Fail> {
    let bytes = static_head(rt.alloc(), "a.css", 3)?;
    assert_eq!(rt;
        bytes.as_slice(),
        b"HTTP/1.1 200 OK\r\nContent-Type: text/css\r\nContent-Length: 3\r\nConnection: close\r\n\r\n".as_slice()
    );
    let bytes = static_head(rt.alloc(), "css", 0)?;
    assert_eq!(rt;
        bytes.as_slice(),
        b"HTTP/1.1 200 OK\r\nContent-Type: application/octet-stream\r\nContent-Length: 0\r\nConnection: close\r\n\r\n".as_slice()
    );
    Ok(())
}
