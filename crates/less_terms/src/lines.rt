// Lines of a text.
ghost use Rattle.std.specs.Prelude.{◌≡◌};
ghost use Rattle.less_terms.specs.Lines.{newlines, line_count};

/// How many bytes 10 a text has.
pub fn count_newlines(text: &[u8]) -> usize
    ensures { result ≡ newlines text.now }
{
    text.iter().filter(|&&byte| byte == b'\n').count()
}

/// How many lines a text has. Each byte 10 ends one, and what follows the last of them is one more unless it is empty.
pub fn count_lines(text: &[u8]) -> usize
    ensures { result ≡ line_count text.now }
{
    let ended = count_newlines(text);
    if text.is_empty() || text[text.len() - 1] == b'\n' {
        return ended;
    }
    ended + 1
}
