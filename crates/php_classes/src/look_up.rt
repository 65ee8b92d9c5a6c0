// Where a member is declared, and who may see it.

ghost use Rattle.std.specs.Prelude.{◌≡◌};
ghost use Rattle.std.specs.List.{position};
ghost use Rattle.php_classes.specs.Members.{is_named};
ghost use Rattle.php_classes.specs.Ancestors.{all_of, lineage_at};
ghost use Rattle.php_classes.specs.LookUp.{members_at, first_among, visibility_at, is_visible, seen, constant_at};

use crate::class::{ClassEntry, Lineage, MemberEntry, MemberKind, MemberRef};
use crate::fault::ClassFault;
use crate::lineage::descends;
use php_tree::decl::Visibility;
use sqlite_items::at;

/// The names that a class declares.
pub fn members_at(classes: &[ClassEntry], class: u32) -> &[MemberEntry]
    ensures { result.now ≡ members_at classes.now class }
{
    match at(classes, class as usize) {
        Some(class) => class.members.as_slice(),
        None => &[],
    }
}

fn place_at(classes: &[ClassEntry], class: u32, kind: MemberKind, name: &[u8]) -> Option<u32>
    ensures { result ≡ position (is_named kind name.now) (members_at classes.now class) }
{
    match at(classes, class as usize) {
        Some(class) => class.members.place(kind, name),
        None => None,
    }
}

fn first_among(
    classes: &[ClassEntry],
    kind: MemberKind,
    name: &[u8],
    numbers: &[u32],
) -> Option<MemberRef>
    ensures { result ≡ first_among classes.now kind name.now numbers.now }
{
    for number in numbers {
        if let Some(member) = place_at(classes, *number, kind, name) {
            return Some(MemberRef {
                class: *number,
                member,
            });
        }
    }
    None
}

/// The first declaration of a name among these ancestors.
#[tactic(auto, using(crate::proofs::Firsts::first_of_two))]
pub fn first_in(
    classes: &[ClassEntry],
    lineage: &Lineage,
    kind: MemberKind,
    name: &[u8],
) -> Option<MemberRef>
    ensures { result ≡ first_among classes.now kind name.now (all_of lineage.now) }
{
    match first_among(classes, kind, name, lineage.classes.as_slice()) {
        Some(place) => Some(place),
        None => first_among(classes, kind, name, lineage.interfaces.as_slice()),
    }
}

/// The first declaration of a name among the ancestors of a class.
pub fn first_declaration(
    classes: &[ClassEntry],
    lineages: &[Lineage],
    kind: MemberKind,
    class: u32,
    name: &[u8],
) -> Option<MemberRef>
    ensures { result ≡ first_among classes.now kind name.now (all_of (lineage_at lineages.now class)) }
{
    match at(lineages, class as usize) {
        Some(lineage) => first_in(classes, lineage, kind, name),
        None => None,
    }
}

fn visibility_at(classes: &[ClassEntry], place: MemberRef) -> Visibility
    ensures { result ≡ visibility_at classes.now place }
{
    match at(members_at(classes, place.class), place.member as usize) {
        Some(member) => member.visibility,
        None => Visibility::Public,
    }
}

fn is_visible(
    lineages: &[Lineage],
    scope: Option<u32>,
    visibility: Visibility,
    declaring: u32,
) -> bool
    ensures { result ≡ is_visible lineages.now scope visibility declaring }
{
    match (scope, visibility) {
        (_, Visibility::Public) => true,
        (None, _) => false,
        (Some(scope), Visibility::Protected) => {
            descends(lineages, scope, declaring) || descends(lineages, declaring, scope)
        }
        (Some(scope), Visibility::Private) => scope == declaring,
    }
}

/// A first declaration as it is seen from a scope, the class whose code names it.
pub fn seen(
    classes: &[ClassEntry],
    lineages: &[Lineage],
    scope: Option<u32>,
    first: Option<MemberRef>,
) -> Result<MemberRef, ClassFault>
    ensures { result ≡ seen classes.now lineages.now scope first }
{
    let Some(place) = first else {
        return Err(ClassFault::Unknown);
    };
    if is_visible(lineages, scope, visibility_at(classes, place), place.class) {
        Ok(place)
    } else {
        Err(ClassFault::Hidden)
    }
}

/// A first declaration of a constant, which everyone sees.
pub fn constant_at(first: Option<MemberRef>) -> Result<MemberRef, ClassFault>
    ensures { result ≡ constant_at first }
{
    match first {
        Some(place) => Ok(place),
        None => Err(ClassFault::Unknown),
    }
}
