// The words of a call.
ghost use Rattle.std.specs.Prelude.{◌≡◌, map, string_bytes};
ghost use Rattle.std.specs.List.{list_all};
ghost use Rattle.less_cmd.specs.Words as spec;

/// What the words of a call ask for.
#[derive(Clone, Copy, Debug, PartialEq, Eq)]
pub enum Command<'w> {
    Check,
    /// The name of the script.
    Play(&'w str),
    Unknown,
}

fn are_name_bytes(name: &[u8]) -> bool
    ensures { result ≡ list_all spec.is_name_byte name.now }
{
    name.iter().all(|&byte| {
        byte >= b' '
            && byte <= b'~'
            && byte != b'"'
            && byte != b'#'
            && byte != b'\''
            && byte != b'/'
            && byte != b'\\'
    })
}

fn is_file_name(name: &[u8]) -> bool
    ensures { result ≡ spec.is_file_name name.now }
{
    if name.is_empty() || name.len() > 200 {
        return false;
    }
    if name == b".".as_slice() || name == b"..".as_slice() {
        return false;
    }
    are_name_bytes(name)
}

/// Reads the words of a call.
pub fn command_of(words: &[String]) -> Command<'_>
    ensures { spec.asked_by result ≡ spec.asked (map string_bytes words.now) }
{
    match words {
        [command] => {
            if command.as_str() == "check" {
                Command::Check
            } else {
                Command::Unknown
            }
        }
        [command, script] => {
            if command.as_str() == "play" && is_file_name(script.as_bytes()) {
                Command::Play(script.as_str())
            } else {
                Command::Unknown
            }
        }
        _ => Command::Unknown,
    }
}
