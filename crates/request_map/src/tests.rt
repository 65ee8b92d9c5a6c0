use super::*;
use less_outside::{Link, LinkMem};
use std::alloc::Global;
use std::test::Fail;

const PLAIN: &[u8] = b"GET / HTTP/1.0\r\n\r\n";

fn fault_of(alloc: Global, bytes: &[u8]) -> Option<RequestFault> {
    request_of(alloc, bytes).err()
}

// The fault of a head of these lines, each ended by CR LF, and of what follows it.
fn fault_of_lines(
    alloc: Global,
    lines: &[&[u8]],
    body: &[u8],
) -> Result<Option<RequestFault>, Fail> {
    let mut bytes = Vec::new(alloc);
    for line in lines {
        bytes.extend_from_slice(line)?;
        bytes.extend_from_slice(b"\r\n")?;
    }
    bytes.extend_from_slice(b"\r\n")?;
    bytes.extend_from_slice(body)?;
    Ok(fault_of(alloc, &bytes))
}

fn link_of(alloc: Global, bytes: &[u8], piece: usize, failing: &[u64]) -> Result<LinkMem, Fail> {
    let input = Vec::from_slice(alloc, bytes)?;
    Ok(LinkMem::new(
        alloc,
        input,
        piece.max(1),
        0,
        Vec::from_slice(alloc, failing)?,
    )?)
}

#[test]
fn a_plain_request_is_read_and_what_follows_it_is_left(rt: HostRuntime) -> Result<(), Fail> {
    let request = request_of(
        rt.alloc(),
        b"GET /a?b HTTP/1.1\r\nHost: h \r\nX: \t1 2\r\n\r\nmore",
    );
    let Ok(request) = request else {
        assert!(rt; false);
        return Ok(());
    };
    assert_eq!(rt; request.method(), b"GET".as_slice());
    assert_eq!(rt; request.target(), b"/a?b".as_slice());
    assert_eq!(rt; request.version(), 1);
    assert_eq!(rt; request.headers().len(), 2);
    assert_eq!(rt; request.headers()[1].name(), b"X".as_slice());
    assert_eq!(rt; request.headers()[1].value(), b"1 2".as_slice());
    assert_eq!(rt; request.body(), b"".as_slice());
    Ok(())
}

#[test]
fn each_proper_front_of_a_request_is_refused(rt: HostRuntime) -> Result<(), Fail> {
    for size in 0..PLAIN.len() {
        let front = PLAIN.split_at(size).0;
        assert!(rt; fault_of(rt.alloc(), front) == Some(RequestFault::BadRequest));
    }
    assert!(rt; fault_of(rt.alloc(), PLAIN) == None);
    Ok(())
}

#[test]
fn a_head_has_at_most_16_384_bytes(rt: HostRuntime) -> Result<(), Fail> {
    let alloc = rt.alloc();
    let mut bytes = Vec::from_slice(alloc, b"GET / HTTP/1.0\r\nA: ")?;
    for _ in 0..16_361 {
        bytes.push(b'x')?;
    }
    let mut longer = bytes.clone()?;
    bytes.extend_from_slice(b"\r\n\r\n")?;
    longer.extend_from_slice(b"x\r\n\r\n")?;
    assert_eq!(rt; bytes.len(), 16_384);
    assert!(rt; fault_of(alloc, &bytes) == None);
    assert!(rt; fault_of(alloc, &longer) == Some(RequestFault::BadRequest));
    let mut link = link_of(alloc, &longer, 1000, &[])?;
    assert!(rt; read_request(alloc, &mut link).err() == Some(RequestFault::BadRequest));
    assert_eq!(rt; link.rest(), b"\n".as_slice());
    Ok(())
}

#[test]
fn a_head_has_at_most_64_headers(rt: HostRuntime) -> Result<(), Fail> {
    let alloc = rt.alloc();
    let mut bytes = Vec::from_slice(alloc, b"GET / HTTP/1.0\r\n")?;
    for _ in 0..64 {
        bytes.extend_from_slice(b"A: 1\r\n")?;
    }
    let mut longer = bytes.clone()?;
    bytes.extend_from_slice(b"\r\n")?;
    longer.extend_from_slice(b"A: 1\r\n\r\n")?;
    assert!(rt; fault_of(alloc, &bytes) == None);
    assert!(rt; fault_of(alloc, &longer) == Some(RequestFault::BadRequest));
    Ok(())
}

#[test]
fn lines_may_end_in_lf_alone_and_empty_lines_may_come_first(rt: HostRuntime) -> Result<(), Fail> {
    assert!(rt; fault_of(rt.alloc(), b"GET / HTTP/1.0\n\n") == None);
    assert!(rt; fault_of(rt.alloc(), b"\r\n\nGET / HTTP/1.0\r\nA: 1\n\r\n") == None);
    Ok(())
}

#[test]
fn methods_codings_and_hosts(rt: HostRuntime) -> Result<(), Fail> {
    let alloc = rt.alloc();
    assert!(rt;
        fault_of_lines(alloc, &[b"PUT / HTTP/1.1"], b"")? == Some(RequestFault::NotImplemented)
    );
    assert!(rt;
        fault_of_lines(alloc, &[b"get / HTTP/1.0"], b"")? == Some(RequestFault::NotImplemented)
    );
    assert!(rt;
        fault_of_lines(alloc, &[b"GET / HTTP/1.1", b"transfer-ENCODING: x"], b"")?
            == Some(RequestFault::NotImplemented)
    );
    assert!(rt;
        fault_of_lines(alloc, &[b"GET / HTTP/1.1"], b"")? == Some(RequestFault::BadRequest)
    );
    assert!(rt; fault_of_lines(alloc, &[b"GET / HTTP/1.1", b"HOST: a"], b"")? == None);
    assert!(rt;
        fault_of_lines(alloc, &[b"GET / HTTP/1.1", b"Host: a", b"host: a"], b"")?
            == Some(RequestFault::BadRequest)
    );
    assert!(rt; fault_of_lines(alloc, &[b"GET / HTTP/1.0", b"Host: a", b"host: a"], b"")? == None);
    assert!(rt;
        fault_of_lines(alloc, &[b"GET * HTTP/1.0"], b"")? == Some(RequestFault::BadRequest)
    );
    assert!(rt; fault_of_lines(alloc, &[b"HEAD / HTTP/1.0"], b"")? == None);
    Ok(())
}

#[test]
fn lengths_of_bodies(rt: HostRuntime) -> Result<(), Fail> {
    let alloc = rt.alloc();
    let post = b"POST / HTTP/1.0".as_slice();
    assert!(rt; fault_of_lines(alloc, &[post], b"")? == Some(RequestFault::NoLength));
    assert!(rt; fault_of_lines(alloc, &[post, b"Content-Length: 2"], b"ab")? == None);
    assert!(rt;
        fault_of_lines(alloc, &[post, b"Content-Length: 2"], b"a")?
            == Some(RequestFault::BadRequest)
    );
    assert!(rt;
        fault_of_lines(alloc, &[b"GET * HTTP/1.0", b"Content-Length: 1048577"], b"")?
            == Some(RequestFault::TooLarge)
    );
    assert!(rt;
        fault_of_lines(alloc, &[post, b"Content-Length: 1048576"], b"")?
            == Some(RequestFault::BadRequest)
    );
    assert!(rt;
        fault_of_lines(
            alloc,
            &[post, b"Content-Length: 1", b"content-length: 1"],
            b"a"
        )? == Some(RequestFault::BadRequest)
    );
    assert!(rt;
        fault_of_lines(alloc, &[post, b"Content-Length: +1"], b"a")?
            == Some(RequestFault::BadRequest)
    );
    assert!(rt;
        fault_of_lines(alloc, &[post, b"Content-Length:"], b"a")? == Some(RequestFault::BadRequest)
    );
    assert!(rt;
        fault_of_lines(alloc, &[post, b"Content-Length: 000000000000000001"], b"a")? == None
    );
    assert!(rt;
        fault_of_lines(alloc, &[post, b"Content-Length: 0000000000000000001"], b"a")?
            == Some(RequestFault::BadRequest)
    );
    Ok(())
}

#[test]
fn pieces_of_any_size_give_the_same_request(rt: HostRuntime) -> Result<(), Fail> {
    let alloc = rt.alloc();
    let bytes = b"\r\nPOST /x HTTP/1.1\r\nHost: h\r\nContent-Length: 11\r\n\r\nhello world!";
    for piece in [1, 2, 3, 7] {
        let mut link = link_of(alloc, bytes, piece, &[])?;
        let Ok(request) = read_request(alloc, &mut link) else {
            assert!(rt; false);
            return Ok(());
        };
        assert_eq!(rt; request.body(), b"hello world".as_slice());
        assert_eq!(rt; request.headers().len(), 2);
        assert_eq!(rt; link.rest(), b"!".as_slice());
    }
    Ok(())
}

#[test]
fn each_read_that_fails_is_told(rt: HostRuntime) -> Result<(), Fail> {
    let alloc = rt.alloc();
    let bytes = b"POST / HTTP/1.0\r\nContent-Length: 9\r\n\r\nhow is it";
    let mut failed = 0u32;
    for call in 0..60 {
        let mut link = link_of(alloc, bytes, 3, &[call])?;
        let fault = read_request(alloc, &mut link).err();
        if link.read_faults() == 1 {
            assert!(rt; fault == Some(RequestFault::Link));
            failed = failed.wrapping_add(1);
        } else {
            assert!(rt; fault == None);
        }
    }
    assert_eq!(rt; failed, 41);
    Ok(())
}

#[test]
fn nothing_is_read_of_the_body_where_the_head_is_refused(rt: HostRuntime) -> Result<(), Fail> {
    let alloc = rt.alloc();
    let mut link = link_of(
        alloc,
        b"PUT / HTTP/1.0\r\nContent-Length: 2\r\n\r\nab",
        5,
        &[],
    )?;
    assert!(rt; read_request(alloc, &mut link).err() == Some(RequestFault::NotImplemented));
    assert_eq!(rt; link.rest(), b"ab".as_slice());
    Ok(())
}

#[test]
fn targets_name_files(rt: HostRuntime) -> Result<(), Fail> {
    let alloc = rt.alloc();
    let rows: [(&[u8], &[u8]); 8] = [
        (b"/", b"index.php"),
        (b"/?a=/x", b"index.php"),
        (b"/a/", b"a/index.php"),
        (b"/a.css", b"a.css"),
        (b"/a%2Fb%3F.php?c?d", b"a/b?.php"),
        (b"//x", b"/x"),
        (b"/%", b"%"),
        (b"/a+b", b"a+b"),
    ];
    for (target, path) in rows {
        assert_eq!(rt; file_path(alloc, target)?.as_slice(), path);
    }
    Ok(())
}

#[test]
fn a_request_asks_for_a_script_or_a_static_file(rt: HostRuntime) -> Result<(), Fail> {
    let alloc = rt.alloc();
    let scripts = [
        String::from_str(alloc, "index.php")?,
        String::from_str(alloc, "lib/a.php")?,
    ];
    let mut statics = Vec::new(alloc);
    statics.push((
        String::from_str(alloc, "a.css")?,
        Vec::from_slice(alloc, b"b{}")?,
    ))?;
    let Ok(request) = request_of(alloc, b"GET /a%2Ecss HTTP/1.0\r\n\r\n") else {
        assert!(rt; false);
        return Ok(());
    };
    assert!(rt;
        matches!(
            route_of(alloc, &scripts, &statics, &request)?,
            Route::Static(0)
        )
    );
    let Ok(request) = request_of(alloc, PLAIN) else {
        assert!(rt; false);
        return Ok(());
    };
    match route_of(alloc, &scripts, &statics, &request)? {
        Route::Script(path) => assert_eq!(rt; path.as_str(), "index.php"),
        _ => assert!(rt; false),
    }
    let Ok(request) = request_of(alloc, b"GET /no HTTP/1.0\r\n\r\n") else {
        assert!(rt; false);
        return Ok(());
    };
    assert!(rt;
        matches!(
            route_of(alloc, &scripts, &statics, &request)?,
            Route::NotFound
        )
    );
    Ok(())
}
