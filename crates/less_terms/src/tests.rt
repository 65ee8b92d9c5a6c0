use super::*;
use std::test::Fail;

#[test]
fn lines_are_counted_with_an_open_last_one(rt: HostRuntime) -> Result<(), Fail> {
    let rows: [(&[u8], usize, usize); 5] = [
        (b"", 0, 0),
        (b"a", 0, 1),
        (b"a\n", 1, 1),
        (b"a\r\n\nb", 2, 3),
        (b"\n", 1, 1),
    ];
    for (text, newlines, lines) in &rows {
        assert_eq!(rt; count_newlines(text), *newlines);
        assert_eq!(rt; count_lines(text), *lines);
    }
    Ok(())
}

#[test]
fn decimals_have_no_sign_and_no_leading_zero(rt: HostRuntime) -> Result<(), Fail> {
    let rows: [(&[u8], u64, Option<u64>); 11] = [
        (b"0", 0, Some(0)),
        (b"10", 10, Some(10)),
        (b"10", 9, None),
        (b"01", 9, None),
        (b"00", 9, None),
        (b"", 9, None),
        (b"+1", 9, None),
        (b"1a", 99, None),
        (b"18446744073709551615", u64::MAX, Some(u64::MAX)),
        (b"18446744073709551616", u64::MAX, None),
        (b"99999999999999999999999", u64::MAX, None),
    ];
    for (text, most, value) in &rows {
        assert_eq!(rt; read_decimal(text, *most), *value);
    }
    Ok(())
}

#[test]
fn roles_are_short_lower_case_words(rt: HostRuntime) -> Result<(), Fail> {
    let rows: [(&[u8], bool); 8] = [
        (b"guest", true),
        (b"a", true),
        (b"", false),
        (b"_a", false),
        (b"Guest", false),
        (b"a-b", false),
        (b"a2345678901234567890123456789012", true),
        (b"a23456789012345678901234567890123", false),
    ];
    for (name, right) in &rows {
        assert_eq!(rt; is_role(name), *right);
    }
    Ok(())
}

#[test]
fn paths_have_segments_of_printable_bytes(rt: HostRuntime) -> Result<(), Fail> {
    let rows: [(&[u8], bool); 18] = [
        (b"index.php", true),
        (b"lib/db.php", true),
        (b"a b?>,~", true),
        (b"...", true),
        (b"", false),
        (b"/a", false),
        (b"a/", false),
        (b"a//b", false),
        (b".", false),
        (b"a/../b", false),
        (b"./a", false),
        (b"a'b", false),
        (b"a\"b", false),
        (b"a\\b", false),
        (b"a#b", false),
        (b"a\tb", false),
        (b"a\x7f", false),
        (b"\xc3\xa4", false),
    ];
    for (path, right) in &rows {
        assert_eq!(rt; is_path(path), *right);
    }
    let long = [b'a'; 201];
    assert_eq!(rt; is_path(&long[..200]), true);
    assert_eq!(rt; is_path(&long), false);
    Ok(())
}

#[test]
fn function_names_are_one_word_or_two(rt: HostRuntime) -> Result<(), Fail> {
    let rows: [(&[u8], bool); 13] = [
        (b"tasks_of", true),
        (b"_9", true),
        (b"c::__construct", true),
        (b"", false),
        (b"9a", false),
        (b"Old", false),
        (b"a\\b", false),
        (b"a:b", false),
        (b"a::", false),
        (b"::a", false),
        (b"a::b::c", false),
        (b"a:::b", false),
        (b"-", false),
    ];
    for (name, right) in &rows {
        assert_eq!(rt; is_function_name(name), *right);
    }
    let long = [b'a'; 101];
    assert_eq!(rt; is_function_name(&long[..100]), true);
    assert_eq!(rt; is_function_name(&long), false);
    Ok(())
}
