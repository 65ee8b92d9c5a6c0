// The fields of a line, parted by tabs.
ghost use Rattle.std.specs.Prelude.{◌≡◌, ◌≤◌, ◌∷◌, [], length, MatchOption};
ghost use Rattle.std.specs.List.{position_or_len};
ghost use Rattle.removal_reports.specs.LogLines.{is_tab, fields_in};
ghost use Rattle.removal_reports.specs.Fields.{fields_list};

#[derive(Drop)]
pub struct Fields<'a> {
    pub word: &'a [u8],
    pub moment: &'a [u8],
    pub role: &'a [u8],
    pub slot: &'a [u8],
    pub kind: &'a [u8],
    pub path: &'a [u8],
    pub name: &'a [u8],
}

// The place of the first tab, or the end.
fn tab_place(text: &[u8]) -> usize
    ensures value { result ≡ position_or_len is_tab text.now }
    ensures within { result ≤ length text.now }
{
    text.iter().take_while(|&&byte| byte != b'\t').count()
}

// What stands before the first tab, and behind it.
fn cut(text: &[u8]) -> Option<(&[u8], &[u8])>
    ensures { MatchOption result (fields_in text.now ≡ text.now ∷ []) (λ p. fields_in text.now ≡ p.0.now ∷ fields_in p.1.now) }
{
    let (front, rest) = text.split_at(tab_place(text));
    match rest {
        [] => None,
        [_, behind @ ..] => Some((front, behind)),
    }
}

/// The fields of a text that has seven.
pub fn cut_fields(text: &[u8]) -> Option<Fields<'_>>
    ensures { MatchOption result (length (fields_in text.now) ≡ 7 → ⊥) (λ fields. fields_in text.now ≡ fields_list fields) }
{
    let Some((word, rest)) = cut(text) else {
        return None;
    };
    let Some((moment, rest)) = cut(rest) else {
        return None;
    };
    let Some((role, rest)) = cut(rest) else {
        return None;
    };
    let Some((slot, rest)) = cut(rest) else {
        return None;
    };
    let Some((kind, rest)) = cut(rest) else {
        return None;
    };
    let Some((path, name)) = cut(rest) else {
        return None;
    };
    match cut(name) {
        Some(_) => None,
        None => Some(Fields {
            word,
            moment,
            role,
            slot,
            kind,
            path,
            name,
        }),
    }
}
