//! The line that a removal is told by.
ghost use Rattle.std.specs.Prelude.{◌≡◌, ◌∷◌, [], ◌++◌, IfOk, OnOk, string_bytes, codes};
ghost use Rattle.std.specs.Fmt.{decimal};
ghost use Rattle.app_load.specs.Entries.{entry_of};
ghost use Rattle.removal_reports.specs.LogLines as spec;
ghost use Rattle.removal_reports.specs.LogLines.{line_of};

use app_load::Entry;
use itoa::Buffer;
use less_terms::Memory;
use std::alloc::Global;

/// What a line of the removal log tells.
#[derive(Debug, PartialEq, Eq, Drop)]
pub struct LogLine {
    /// In seconds since the beginning of 1970 (UTC).
    pub moment: u64,
    /// The role in whose copy it was.
    pub role: String,
    /// The session's slot.
    pub slot: u8,
    pub entry: Entry,
}

fn push_number(line: &mut Vec<u8>, number: u64) -> Result<(), Memory>
    ensures { OnOk result (line.new.items ≡ line.old.items ++ decimal number) }
{
    let mut digits = Buffer::new();
    line.extend_from_slice(digits.format(number).as_bytes())?;
    Ok(())
}

fn push_field(line: &mut Vec<u8>, field: &[u8]) -> Result<(), Memory>
    ensures { OnOk result (line.new.items ≡ line.old.items ++ (9 ∷ field.now)) }
{
    line.push(b'\t')?;
    line.extend_from_slice(field)?;
    Ok(())
}

fn push_entry(line: &mut Vec<u8>, entry: &Entry) -> Result<(), Memory>
    ensures { OnOk result (line.new.items ≡ line.old.items ++ (9 ∷ spec.kind_text (entry_of entry.now)) ++ (9 ∷ spec.path_text (entry_of entry.now)) ++ (9 ∷ spec.name_text (entry_of entry.now))) }
{
    match entry {
        Entry::File { path } => {
            push_field(line, b"file")?;
            push_field(line, path.as_bytes())?;
            push_field(line, b"-")?;
        }
        Entry::Function { path, name } => {
            push_field(line, b"function")?;
            push_field(line, path.as_bytes())?;
            push_field(line, name.as_bytes())?;
        }
    }
    Ok(())
}

/// The line of one removal, with its line end: `removed`, the moment, the role, the slot, `file` or `function`, the path,
/// and the function's name or `-`, parted by tabs. It is read back where role, path and name have their forms.
pub fn log_line(
    alloc: Global,
    moment: u64,
    role: &str,
    slot: u8,
    entry: &Entry,
) -> Result<Vec<u8>, Memory>
    ensures { IfOk result (λ line. line.items ≡ line_of (record { moment = moment; role = role.now; slot = slot; entry = entry_of entry.now })) }
{
    let mut line = Vec::from_slice(alloc, b"removed\t")?;
    push_number(&mut line, moment)?;
    push_field(&mut line, role.as_bytes())?;
    line.push(b'\t')?;
    push_number(&mut line, slot as u64)?;
    push_entry(&mut line, entry)?;
    line.push(b'\n')?;
    Ok(line)
}
