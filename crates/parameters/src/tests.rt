use super::*;
use order_map::{Key, OrderMap};
use php_values::{Value, Walk};
use std::alloc::{AllocError, Global};
use std::test::Fail;

// A key and `=`; a number has `#` in front.
fn show_key(alloc: Global, out: &mut Vec<u8>, key: &Key) -> Result<(), AllocError> {
    match key {
        Key::Int(n) => {
            let digits = n.to_string(alloc)?;
            out.push(b'#')?;
            out.extend_from_slice(digits.as_bytes())?;
        }
        Key::Text(text) => out.extend_from_slice(text.as_slice())?,
    }
    out.push(b'=')?;
    Ok(())
}

// A text, or an array in brackets, and `;`.
#[cycle(show)]
fn show_value(
    alloc: Global,
    out: &mut Vec<u8>,
    value: &Value,
    depth: u8,
) -> Result<(), AllocError> {
    match value {
        Value::Bytes(text) => out.extend_from_slice(text.as_slice())?,
        Value::List(array) => {
            if depth > 0 {
                out.push(b'(')?;
                show_pairs(alloc, out, array.map.as_ref(), depth - 1)?;
                out.push(b')')?;
            }
        }
        _ => out.push(b'?')?,
    }
    out.push(b';')?;
    Ok(())
}

#[cycle(show)]
fn show_pairs(
    alloc: Global,
    out: &mut Vec<u8>,
    map: &OrderMap<Value>,
    depth: u8,
) -> Result<(), AllocError> {
    let mut walk = Walk::new(map);
    for _ in 0..map.len() {
        if let Some((key, value)) = walk.next() {
            show_key(alloc, out, key)?;
            show_value(alloc, out, value, depth)?;
        }
    }
    Ok(())
}

fn shown(alloc: Global, map: &OrderMap<Value>) -> Result<Vec<u8>, AllocError> {
    let mut out = Vec::new(alloc);
    show_pairs(alloc, &mut out, map, 9)?;
    Ok(out)
}

fn query_shown(alloc: Global, query: &[u8]) -> Result<Vec<u8>, AllocError> {
    let map = parameters(alloc, query)?;
    let out = shown(alloc, &map)?;
    Ok(out)
}

#[test]
fn parameters_stand_where_their_names_tell(rt: HostRuntime) -> Result<(), Fail> {
    let rows: [(&[u8], &[u8]); 12] = [
        (b"a[]=1&a[k]=2&b.c=3&d[=4", b"a=(#0=1;k=2;);b_c=3;"),
        (b"++a+b.c=1&=1&[x]=2&%20=3&&b", b"a_b_c=1;b=;"),
        (b"a[x]y[z]=1&a[b[c].d]=2&a[+e.]=3", b"a=(x=1;b[c=2; e.=3;);"),
        (b"a=1&a[]=2&b[]=3&b=4&a=5", b"a=5;b=4;"),
        (
            b"a=1&a[]=2&a[][x]=3&a[][]=4",
            b"a=(#0=2;#1=(x=3;);#2=(#0=4;););",
        ),
        (b"08=x&8=y&-7=z&-0=u&8=v", b"08=x;#8=v;#-7=z;-0=u;"),
        (b"a=%FF%41+", b"a=\xEF\xBF\xBDA ;"),
        (
            b"a[9223372036854775807]=1&a[][x]=2&a[x]=3",
            b"a=(#9223372036854775807=1;x=3;);",
        ),
        (
            b"a[1][2][3][4][5][6][7][8]=v",
            b"a=(#1=(#2=(#3=(#4=(#5=(#6=(#7=(#8=v;););););););););",
        ),
        (b"a[1][2][3][4][5][6][7][8][]=v&b", b"b=;"),
        (b"a[1][2][3][4][5][6][7][8[=v&b", b"b=;"),
        (
            b"a[1][2][3][4][5][6][7][8]x[]=v",
            b"a=(#1=(#2=(#3=(#4=(#5=(#6=(#7=(#8=v;););););););););",
        ),
    ];
    for (query, expected) in rows {
        assert_eq!(rt; query_shown(rt.alloc(), query)?.as_slice(), expected);
    }
    Ok(())
}

#[test]
fn a_thousand_pairs_count(rt: HostRuntime) -> Result<(), Fail> {
    let alloc = rt.alloc();
    let mut query = Vec::new(alloc);
    for _ in 0..999 {
        query.extend_from_slice(b"a=1&&")?;
    }
    query.extend_from_slice(b"b=2&c=3")?;
    assert_eq!(rt;
        query_shown(alloc, &query)?.as_slice(),
        b"a=1;b=2;".as_slice()
    );
    Ok(())
}

#[test]
fn the_first_cookie_of_a_name_stays(rt: HostRuntime) -> Result<(), Fail> {
    let alloc = rt.alloc();
    let mut map = OrderMap::new(alloc);
    add_cookies(alloc, &mut map, b"a=1;  b=2;a=3; =4;c.d=%41+x;;e[0]=5")?;
    add_cookies(alloc, &mut map, b"b=6; f; %2E=7=8")?;
    let expected = b"a=1;b=2;c.d=A x;e[0]=5;f=;.=7=8;".as_slice();
    assert_eq!(rt; shown(alloc, &map)?.as_slice(), expected);
    Ok(())
}

#[test]
fn pairs_are_set_over_others(rt: HostRuntime) -> Result<(), Fail> {
    let alloc = rt.alloc();
    let mut map = parameters(alloc, b"a=1&b[x]=2&c=3")?;
    let over = parameters(alloc, b"b[y]=4&5=6&c=7")?;
    set_over(&mut map, &over)?;
    let expected = b"a=1;b=(y=4;);c=7;#5=6;".as_slice();
    assert_eq!(rt; shown(alloc, &map)?.as_slice(), expected);
    Ok(())
}
