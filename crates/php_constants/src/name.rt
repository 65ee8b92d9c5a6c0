// Constants that are always there.

ghost use Rattle.std.specs.Prelude.{◌≡◌, IfOk};
ghost use Rattle.std.specs.Option.{option_map};
ghost use Rattle.std.specs.Str.{bytes_eq, str_to_ascii_lowercase};
ghost use Rattle.php_values.specs.Data.{data_of, bytes};
ghost use Rattle.php_meaning.specs.Folders.{folder_of};
ghost use Rattle.php_meaning.specs.Constants as spec;

use order_map::ByteText;
use php_folders::folder_text;
use php_names::is_word;
use php_values::Value;
use std::alloc::{AllocError, Global};

fn is_name(name: &[u8], other: &[u8]) -> bool
    ensures { result ≡ bytes_eq name.now other.now }
{
    name == other
}

/// `true`, `false` and `null` in any case.
pub(crate) fn word_value(name: &[u8]) -> Option<Value>
    ensures { option_map data_of result ≡ spec.word_value (str_to_ascii_lowercase name.now) }
{
    if is_word(name, b"true") {
        return Some(Value::Bool(true));
    }
    if is_word(name, b"false") {
        return Some(Value::Bool(false));
    }
    if is_word(name, b"null") {
        return Some(Value::Null);
    }
    None
}

/// The language's constants.
pub(crate) fn built_in(alloc: Global, name: &[u8]) -> Result<Option<Value>, AllocError>
    ensures { IfOk result (λ o. option_map data_of o ≡ spec.built_in name.now) }
{
    if is_name(name, b"PHP_INT_MAX") {
        return Ok(Some(Value::Int(i64::MAX)));
    }
    if is_name(name, b"PHP_INT_MIN") {
        return Ok(Some(Value::Int(i64::MIN)));
    }
    if is_name(name, b"PHP_EOL") {
        return Ok(Some(Value::Bytes(ByteText::from_slice(alloc, b"\n")?)));
    }
    if is_name(name, b"ENT_COMPAT") {
        return Ok(Some(Value::Int(2)));
    }
    if is_name(name, b"ENT_QUOTES") {
        return Ok(Some(Value::Int(3)));
    }
    if is_name(name, b"ENT_NOQUOTES") {
        return Ok(Some(Value::Int(0)));
    }
    if is_name(name, b"STR_PAD_LEFT") {
        return Ok(Some(Value::Int(0)));
    }
    if is_name(name, b"STR_PAD_RIGHT") {
        return Ok(Some(Value::Int(1)));
    }
    Ok(None)
}

// The whole path of a file.
fn file_value(alloc: Global, path: &[u8]) -> Result<Value, AllocError>
    ensures { IfOk result (λ v. data_of v ≡ bytes (spec.file_text path.now)) }
{
    let mut text = ByteText::from_slice(alloc, b"/app/")?;
    text.extend_from_slice(path)?;
    Ok(Value::Bytes(text))
}

fn folder_value(alloc: Global, path: &[u8]) -> Result<Value, AllocError>
    ensures { IfOk result (λ v. data_of v ≡ bytes (spec.folder_text (folder_of path.now))) }
{
    let text = folder_text(alloc, path)?;
    Ok(Value::Bytes(ByteText::from_vec(alloc, text)?))
}

/// Those that say in which file they stand, and on which line.
pub(crate) fn place_value(
    alloc: Global,
    path: &[u8],
    line: u32,
    name: &[u8],
) -> Result<Option<Value>, AllocError>
    ensures { IfOk result (λ o. option_map data_of o ≡ spec.place_value path.now line name.now) }
{
    if is_name(name, b"__FILE__") {
        return Ok(Some(file_value(alloc, path)?));
    }
    if is_name(name, b"__DIR__") {
        return Ok(Some(folder_value(alloc, path)?));
    }
    if is_name(name, b"__LINE__") {
        return Ok(Some(Value::Int(i64::from(line))));
    }
    Ok(None)
}
