// When a declaration is refused.

ghost use Rattle.std.specs.Prelude.{◌≡◌, codes};
ghost use Rattle.std.specs.List.{list_any};
ghost use Rattle.php_classes.specs.Members.{is_named};
ghost use Rattle.php_classes.specs.Ancestors.{all_of};
ghost use Rattle.php_classes.specs.Declaring.{is_private, is_base, is_closed, closes, class_closes, declares_again, has_body_at, is_bodiless, class_lacks, lacks_among, is_concrete};

use crate::class::{ClassEntry, Lineage, MemberEntry, MemberKind, MemberRef};
use crate::look_up::{first_in, members_at};
use crate::members::{is_named, is_same_kind};
use php_names::is_word;
use php_tree::decl::{ClassKind, Visibility};
use sqlite_items::at;

// ---- members that may not be declared again

/// The number of the class `Exception`.
const EXCEPTION: u32 = 1;

/// The number of the class `Error`.
const ERROR: u32 = 2;

fn is_private(visibility: Visibility) -> bool
    ensures { result ≡ is_private visibility }
{
    match visibility {
        Visibility::Public | Visibility::Protected => false,
        Visibility::Private => true,
    }
}

fn is_base(class: u32) -> bool
    ensures { result ≡ is_base class }
{
    class == EXCEPTION || class == ERROR
}

fn is_closed(class: u32, member: &MemberEntry) -> bool
    ensures { result ≡ is_closed class member.now }
{
    is_private(member.visibility)
        || is_base(class)
            && is_same_kind(MemberKind::Method, member.kind)
            && !is_word(b"__construct", member.name.as_slice())
}

fn has_named(entries: &[MemberEntry], kind: MemberKind, name: &[u8]) -> bool
    ensures { result ≡ list_any (is_named kind name.now) entries.now }
{
    entries.iter().any(|entry| is_named(kind, name, entry))
}

fn closes(entries: &[MemberEntry], class: u32, member: &MemberEntry) -> bool
    ensures { result ≡ closes entries.now class member.now }
{
    is_closed(class, member) && has_named(entries, member.kind, member.name.as_slice())
}

fn class_closes(classes: &[ClassEntry], entries: &[MemberEntry], class: u32) -> bool
    ensures { result ≡ class_closes classes.now entries.now class }
{
    members_at(classes, class)
        .iter()
        .any(|member| closes(entries, class, member))
}

fn numbers_close(classes: &[ClassEntry], entries: &[MemberEntry], numbers: &[u32]) -> bool
    ensures { result ≡ list_any (class_closes classes.now entries.now) numbers.now }
{
    numbers
        .iter()
        .any(|class| class_closes(classes, entries, *class))
}

/// Whether a class declares again what an ancestor of it does not leave to it.
pub fn declares_again(classes: &[ClassEntry], lineages: &[Lineage], class: &ClassEntry) -> bool
    ensures { result ≡ declares_again classes.now lineages.now class.now }
{
    let Some(parent) = class.parent else {
        return false;
    };
    let Some(lineage) = at(lineages, parent as usize) else {
        return false;
    };
    let entries = class.members.as_slice();
    numbers_close(classes, entries, lineage.classes.as_slice())
        || numbers_close(classes, entries, lineage.interfaces.as_slice())
}

// ---- methods without a body

fn has_body_at(classes: &[ClassEntry], place: Option<MemberRef>) -> bool
    ensures { result ≡ has_body_at classes.now place }
{
    let Some(place) = place else {
        return true;
    };
    match at(members_at(classes, place.class), place.member as usize) {
        Some(member) => member.has_body,
        None => true,
    }
}

fn is_bodiless(classes: &[ClassEntry], lineage: &Lineage, member: &MemberEntry) -> bool
    ensures { result ≡ is_bodiless classes.now (all_of lineage.now) member.now }
{
    if !is_same_kind(MemberKind::Method, member.kind) {
        return false;
    }
    let first = first_in(classes, lineage, MemberKind::Method, member.name.as_slice());
    !has_body_at(classes, first)
}

fn class_lacks(classes: &[ClassEntry], lineage: &Lineage, class: u32) -> bool
    ensures { result ≡ class_lacks classes.now (all_of lineage.now) class }
{
    members_at(classes, class)
        .iter()
        .any(|member| is_bodiless(classes, lineage, member))
}

fn numbers_lack(classes: &[ClassEntry], lineage: &Lineage, numbers: &[u32]) -> bool
    ensures { result ≡ list_any (class_lacks classes.now (all_of lineage.now)) numbers.now }
{
    numbers
        .iter()
        .any(|class| class_lacks(classes, lineage, *class))
}

/// Whether a method has no body where it is first declared among these ancestors.
pub fn lacks_among(classes: &[ClassEntry], lineage: &Lineage) -> bool
    ensures { result ≡ lacks_among classes.now (all_of lineage.now) }
{
    numbers_lack(classes, lineage, lineage.classes.as_slice())
        || numbers_lack(classes, lineage, lineage.interfaces.as_slice())
}

/// Whether a class is neither abstract nor an interface.
pub fn is_concrete(kind: ClassKind) -> bool
    ensures { result ≡ is_concrete kind }
{
    match kind {
        ClassKind::Plain | ClassKind::Final => true,
        ClassKind::Abstract | ClassKind::Interface => false,
    }
}
