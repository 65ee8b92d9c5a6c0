// Forms of names.
ghost use Rattle.std.specs.Prelude.{◌≡◌};
ghost use Rattle.std.specs.List.{list_all};
ghost use Rattle.less_terms.specs.Forms.{is_role, is_name_byte};

fn are_name_bytes(text: &[u8]) -> bool
    ensures { result ≡ list_all is_name_byte text.now }
{
    text.iter().all(|byte| byte.is_ascii_lowercase() || byte.is_ascii_digit() || *byte == b'_')
}

/// Whether a text is the name of a role: `[a-z][a-z0-9_]{0,31}`.
pub fn is_role(name: &[u8]) -> bool
    ensures { result ≡ is_role name.now }
{
    match name {
        [] => false,
        [first, rest @ ..] => {
            if !first.is_ascii_lowercase() || rest.len() > 31 {
                return false;
            }
            are_name_bytes(rest)
        }
    }
}
