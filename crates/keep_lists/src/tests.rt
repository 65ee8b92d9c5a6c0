use super::*;
use app_load::Entry;
use role_routing::{RolesFault, read_roles};
use std::alloc::{AllocError, Global};
use std::test::Fail;

fn file(alloc: Global, path: &str) -> Result<Entry, AllocError> {
    let path = String::from_str(alloc, path)?;
    Ok(Entry::File { path })
}

fn function(alloc: Global, path: &str, name: &str) -> Result<Entry, AllocError> {
    let path = String::from_str(alloc, path)?;
    let name = String::from_str(alloc, name)?;
    Ok(Entry::Function { path, name })
}

// The first unknown text of a file of roles, or nothing where it passes.
fn unknown(alloc: Global, keep: &str) -> Result<String, Fail> {
    let mut text = String::from_str(alloc, "guest = \"b\"\nroles = [\"b\", \"a\"]\n[keep]\n")?;
    text.push_str(keep)?;
    let roles = read_roles(alloc, text.as_bytes()).ok().ok_or("no roles")?;
    let mut entries = Vec::new(alloc);
    entries.push(file(alloc, "index.php")?)?;
    entries.push(function(alloc, "index.php", "f")?)?;
    entries.push(function(alloc, "index.php", "c::m")?)?;
    entries.push(file(alloc, "lib/empty.php")?)?;
    let mut statics = Vec::new(alloc);
    statics.push(String::from_str(alloc, "a.css")?)?;
    match check_keep_lists(alloc, &roles, &entries, &statics) {
        Ok(()) => Ok(String::new(alloc)),
        Err(RolesFault::UnknownEntry(text)) => Ok(text),
        Err(_) => Ok(String::from_str(alloc, "another fault")?),
    }
}

#[test]
fn the_first_text_that_names_nothing_is_told(rt: HostRuntime) -> Result<(), Fail> {
    let rows = [
        ("", ""),
        (
            "a = [\"index.php\", \"index.php#f\", \"index.php#c::m\", \"index.php#*\"]",
            "",
        ),
        ("a = [\"a.css\", \"lib/empty.php#*\"]\nb = []", ""),
        ("a = [\"a.css#*\"]", "a.css#*"),
        ("a = [\"index.php#g\", \"no.php\"]", "index.php#g"),
        (
            "b = [\"no.php\"]\na = [\"index.php\", \"lib/no.php#*\"]",
            "lib/no.php#*",
        ),
        (
            "b = [\"lib/empty.php#f\"]\na = [\"index.php\"]",
            "lib/empty.php#f",
        ),
    ];
    for (keep, expected) in rows {
        assert_eq!(rt; unknown(rt.alloc(), keep)?.as_str(), expected);
    }
    Ok(())
}
