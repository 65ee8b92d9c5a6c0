use super::*;
use order_map::{ByteText, Key, OrderMap};
use php_values::{ArrayValue, Value, Walk, to_text};
use request_map::{WebRequest, request_of as request_from};
use std::alloc::Global;
use std::test::Fail;

// A key, `=`, a text and `;`.
fn show_pair(alloc: Global, out: &mut Vec<u8>, key: &Key, value: &Value) -> Result<(), Fail> {
    match key {
        Key::Int(n) => {
            let digits = n.to_string(alloc)?;
            out.extend_from_slice(digits.as_bytes())?;
        }
        Key::Text(name) => out.extend_from_slice(name.as_slice())?,
    }
    out.push(b'=')?;
    let text = to_text(alloc, value).ok().ok_or("an object")?;
    out.extend_from_slice(text.as_slice())?;
    out.push(b';')?;
    Ok(())
}

// The pairs of an array in their order.
fn shown(alloc: Global, array: &ArrayValue) -> Result<Vec<u8>, Fail> {
    let mut out = Vec::new(alloc);
    let map: &OrderMap<Value> = array.map.as_ref();
    let mut walk = Walk::new(map);
    for _ in 0..map.len() {
        if let Some((key, value)) = walk.next() {
            show_pair(alloc, &mut out, key, value)?;
        }
    }
    Ok(out)
}

fn input_of(alloc: Global, bytes: &[u8]) -> Result<ScriptInput, Fail> {
    let request: WebRequest = request_from(alloc, bytes).ok().ok_or("no request")?;
    Ok(script_input(alloc, &request, "d/a.php", 100)?)
}

#[test]
fn a_script_is_given_the_parts_of_its_request(rt: HostRuntime) -> Result<(), Fail> {
    let alloc = rt.alloc();
    let input = input_of(
        alloc,
        b"POST /d/a%2Ephp?a=1&b=2&c[]=3?d HTTP/1.1\r\nHost: h:80\r\ncookie: x=1; PHPSESSID=00\r\nContent-Type: Application/X-WWW-form-urlencoded \t;charset=x\r\nContent-Length: 7\r\nCookie: x=2; y=%33\r\n\r\nb=5&6=7;ignored",
    )?;
    assert_eq!(rt; input.script.as_str(), "d/a.php");
    assert_eq!(rt;
        shown(alloc, &input.get)?.as_slice(),
        b"a=1;b=2;c=Array;".as_slice()
    );
    assert_eq!(rt;
        shown(alloc, &input.post)?.as_slice(),
        b"b=5;6=7;".as_slice()
    );
    assert_eq!(rt;
        shown(alloc, &input.cookie)?.as_slice(),
        b"x=1;PHPSESSID=00;y=3;".as_slice()
    );
    assert_eq!(rt;
        shown(alloc, &input.request)?.as_slice(),
        b"a=1;b=5;c=Array;6=7;".as_slice()
    );
    let server =
        b"REQUEST_METHOD=POST;REQUEST_URI=/d/a%2Ephp?a=1&b=2&c[]=3?d;QUERY_STRING=a=1&b=2&c[]=3?d;SCRIPT_NAME=/d/a.php;PHP_SELF=/d/a.php;SERVER_PROTOCOL=HTTP/1.1;HTTP_HOST=h:80;REQUEST_TIME=100;".as_slice();
    assert_eq!(rt; shown(alloc, &input.server)?.as_slice(), server);
    Ok(())
}

#[test]
fn another_type_is_no_form_and_a_host_may_be_missing(rt: HostRuntime) -> Result<(), Fail> {
    let alloc = rt.alloc();
    let rows: [&[u8]; 4] = [
        b"POST / HTTP/1.0\r\nContent-Type: text/plain\r\nContent-Type: application/x-www-form-urlencoded\r\nContent-Length: 3\r\n\r\na=1",
        b"POST / HTTP/1.0\r\nContent-Type: application/x-www-form-urlencoded2\r\nContent-Length: 3\r\n\r\na=1",
        b"POST / HTTP/1.0\r\nContent-Type: ;application/x-www-form-urlencoded\r\nContent-Length: 3\r\n\r\na=1",
        b"POST / HTTP/1.0\r\nContent-Length: 3\r\n\r\na=1",
    ];
    for row in rows {
        let input = input_of(alloc, row)?;
        assert_eq!(rt; shown(alloc, &input.post)?.as_slice(), b"".as_slice());
        let server =
            b"REQUEST_METHOD=POST;REQUEST_URI=/;QUERY_STRING=;SCRIPT_NAME=/d/a.php;PHP_SELF=/d/a.php;SERVER_PROTOCOL=HTTP/1.0;REQUEST_TIME=100;".as_slice();
        assert_eq!(rt; shown(alloc, &input.server)?.as_slice(), server);
    }
    Ok(())
}

#[test]
fn brackets_make_arrays(rt: HostRuntime) -> Result<(), Fail> {
    let alloc = rt.alloc();
    let input = input_of(alloc, b"GET /?a[]=1&a[k]=2&b.c=3&d[=4 HTTP/1.0\r\n\r\n")?;
    assert_eq!(rt;
        shown(alloc, &input.get)?.as_slice(),
        b"a=Array;b_c=3;".as_slice()
    );
    let Some(Value::List(a)) = input
        .get
        .map
        .get(&Key::Text(ByteText::from_slice(alloc, b"a")?))
    else {
        assert!(rt; false);
        return Ok(());
    };
    assert_eq!(rt; shown(alloc, a)?.as_slice(), b"0=1;k=2;".as_slice());
    Ok(())
}
