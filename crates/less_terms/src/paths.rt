// Paths of files, and names of functions.
ghost use Rattle.std.specs.Prelude.{◌≡◌, ◌≤◌, length};
ghost use Rattle.std.specs.List.{list_all, slice_split};
ghost use Rattle.less_terms.specs.Forms.{is_name_byte};
ghost use Rattle.less_terms.specs.Paths.{is_path, is_path_byte, is_slash, is_segment, is_word, colon_place, is_method, is_method_name, is_function_name};

fn is_path_byte(byte: u8) -> bool
    ensures { result ≡ is_path_byte byte }
{
    matches!(byte, b' '..=b'~') && !matches!(byte, b'"' | b'\'' | b'\\' | b'#')
}

fn are_path_bytes(text: &[u8]) -> bool
    ensures { result ≡ list_all is_path_byte text.now }
{
    text.iter().all(|&byte| is_path_byte(byte))
}

fn is_segment(segment: &[u8]) -> bool
    ensures { result ≡ is_segment segment.now }
{
    !matches!(segment, b"" | b"." | b"..")
}

fn are_segments(path: &[u8]) -> bool
    ensures { result ≡ list_all is_segment (slice_split is_slash path.now) }
{
    path.split(|&byte| byte == b'/')
        .all(|segment| is_segment(segment))
}

/// Whether a text is a path: 1 to 200 bytes from 0x20 to 0x7E without `'`, `"`, `\` and `#`, in segments parted by `/` of
/// which none is empty, `.` or `..`.
pub fn is_path(path: &[u8]) -> bool
    ensures { result ≡ is_path path.now }
{
    if path.len() > 200 || !are_path_bytes(path) {
        return false;
    }
    are_segments(path)
}

fn are_name_bytes(text: &[u8]) -> bool
    ensures { result ≡ list_all is_name_byte text.now }
{
    text.iter().all(|byte| byte.is_ascii_lowercase() || byte.is_ascii_digit() || *byte == b'_')
}

fn is_word(word: &[u8]) -> bool
    ensures { result ≡ is_word word.now }
{
    match word {
        [] => false,
        [first, rest @ ..] => {
            if !(first.is_ascii_lowercase() || *first == b'_') || rest.len() > 99 {
                return false;
            }
            are_name_bytes(rest)
        }
    }
}

fn colon_place(name: &[u8]) -> usize
    ensures value { result ≡ colon_place name.now }
    ensures within { result ≤ length name.now }
{
    name.iter().take_while(|&&byte| byte != b':').count()
}

fn is_method(rest: &[u8]) -> bool
    ensures { result ≡ is_method rest.now }
{
    match rest {
        [b':', b':', word @ ..] => is_word(word),
        _ => false,
    }
}

fn is_method_name(name: &[u8]) -> bool
    ensures { result ≡ is_method_name name.now }
{
    let (class, rest) = name.split_at(colon_place(name));
    is_word(class) && is_method(rest)
}

/// Whether a text is the name of a function in lower case: a word `[a-z_][a-z0-9_]*` of at most 100 bytes, or for a method
/// two such words parted by `::`.
pub fn is_function_name(name: &[u8]) -> bool
    ensures { result ≡ is_function_name name.now }
{
    is_word(name) || is_method_name(name)
}
