// Keep lists against an application.
ghost use Rattle.std.specs.Prelude.{◌≡◌, map, string_bytes};
ghost use Rattle.std.specs.Option.{option_map};
ghost use Rattle.std.specs.HashSet.{contains_text};
ghost use Rattle.app_load.specs.Entries.{entry_of};
ghost use Rattle.role_routing.specs.Held.{roles_data};
ghost use Rattle.role_routing.specs.Names.{keep_of};
ghost use Rattle.role_routing.specs.Outcomes.{Gives};
ghost use Rattle.keep_lists.specs.Known as spec;

use crate::known::known_texts;
use app_load::Entry;
use role_routing::{Roles, RolesFault};
use std::alloc::Global;
use std::collections::HashSet;

fn is_known(known: &HashSet<String>, text: &String) -> bool
    ensures { result ≡ contains_text known.now (string_bytes text.now) }
{
    known.contains(text.as_str())
}

// The first text of a list that is not among others.
fn unknown_in<'t>(known: &HashSet<String>, list: &'t [String]) -> Option<&'t String>
    ensures { option_map (λ text. string_bytes text.now) result ≡ spec.unknown_in (contains_text known.now) (map string_bytes list.now) }
{
    for text in list {
        if !is_known(known, text) {
            return Some(text);
        }
    }
    None
}

fn unknown_among<'t>(known: &HashSet<String>, lists: &'t [(u8, Vec<String>)]) -> Option<&'t String>
    ensures { option_map (λ text. string_bytes text.now) result ≡ spec.unknown_among (contains_text known.now) (map keep_of lists.now) }
{
    for list in lists {
        if let Some(text) = unknown_in(known, &list.1) {
            return Some(text);
        }
    }
    None
}

/// Tests the keep lists of roles against an application, whose entries are its PHP files and their functions, and whose
/// other files are static. Refused is the first text that names none of them, as `UnknownEntry`: in the order of
/// `Roles::keep`, which is the byte order of the roles' names, and of each list. It takes time in the length of all.
pub fn check_keep_lists(
    alloc: Global,
    roles: &Roles,
    entries: &[Entry],
    statics: &[String],
) -> Result<(), RolesFault>
    ensures { Gives (λ u. u) (spec.keep_judged (map entry_of entries.now) (map string_bytes statics.now) (roles_data roles.now).keep) result }
{
    let known = known_texts(alloc, entries, statics)?;
    match unknown_among(&known, &roles.keep) {
        None => Ok(()),
        Some(text) => Err(RolesFault::UnknownEntry(text.clone()?)),
    }
}
