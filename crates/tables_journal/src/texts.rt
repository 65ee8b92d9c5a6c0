// Texts with their lengths before them.
ghost use Rattle.std.specs.Prelude.{◌≡◌, ◌==◌, ◌++◌, OnOk, IfSome, IfNone};
ghost use Rattle.std.specs.List.{position};
ghost use Rattle.tables_journal.specs.Texts.{text_of, HasNoText};

use itoa::Buffer;
use less_terms::read_decimal;
use std::alloc::AllocError;

/// Puts a text behind the bytes.
pub fn push_text(out: &mut Vec<u8>, text: &[u8]) -> Result<(), AllocError>
    ensures { OnOk result (out.new.items ≡ out.old.items ++ text_of text.now) }
{
    out.extend_from_slice(Buffer::new().format(text.len()).as_bytes())?;
    out.push(b':')?;
    out.extend_from_slice(text)?;
    Ok(())
}

/// The place of the first colon.
pub fn colon_place(bytes: &[u8]) -> Option<usize>
    ensures { result ≡ position (λ byte. byte == 58) bytes.now }
{
    bytes.iter().position(|&byte| byte == b':')
}

/// The text with which the bytes begin, and what is behind it.
pub fn front_text(bytes: &[u8]) -> Option<(&[u8], &[u8])>
    ensures found { IfSome result (λ front. bytes.now ≡ text_of front.0.now ++ front.1.now) }
    ensures none { IfNone result (HasNoText bytes.now) }
{
    let place = colon_place(bytes)?;
    let (digits, behind) = bytes.split_at(place);
    let length = read_decimal(digits, u64::MAX)?;
    let behind = behind.split_at(1).1;
    if length > behind.len() as u64 {
        return None;
    }
    Some(behind.split_at(length as usize))
}
