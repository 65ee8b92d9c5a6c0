// The names that a declaration of a class declares.
#![tactic(auto, using(php_tree::proofs::Statements::statements, crate::proofs::Behind::goes_on, crate::proofs::Behind::in_front, crate::proofs::Behind::method_named))]

ghost use Rattle.std.specs.Prelude.{◌≡◌, ◌++◌, ◌∷◌, [], map, IfOk, OnOk, ℕ};
ghost use Rattle.php_tree.specs.StatementOf as tree;
ghost use Rattle.php_tree.specs.Statements.{Members};
ghost use Rattle.php_tree.specs.declared.decl.FunDecl.{out-FunDecl};
ghost use Rattle.php_classes.specs.Entries.{visibility_of, property_kind, constant_entry, property_entry, method_entry, function_name, entries_of};

use crate::class::{MemberEntry, MemberKind};
use crate::members::MemberList;
use php_tree::decl::{ClassConst, Member, Modifiers, PropertyDecl, Visibility};
use php_tree::name::FunName;
use sqlite_items::Items;
use std::alloc::{AllocError, Global};

fn visibility_of(modifiers: &Modifiers) -> Visibility
    ensures { result ≡ visibility_of modifiers.now }
{
    match modifiers.visibility {
        Some(visibility) => visibility,
        None => Visibility::Public,
    }
}

fn property_kind(modifiers: &Modifiers) -> MemberKind
    ensures { result ≡ property_kind modifiers.now }
{
    if modifiers.is_static {
        MemberKind::StaticProperty
    } else {
        MemberKind::Property
    }
}

fn add_constants(
    alloc: Global,
    entries: &mut MemberList,
    constants: &[ClassConst],
) -> Result<(), AllocError>
    ensures { OnOk result (entries.new ≡ entries.old ++ map constant_entry (map tree.class_constant_of constants.now)) }
{
    for constant in constants {
        entries.push(MemberEntry {
            kind: MemberKind::Constant,
            name: Items::from_slice(alloc, constant.name.text.as_slice())?,
            visibility: Visibility::Public,
            has_body: false,
        })?;
    }
    Ok(())
}

fn add_properties(
    alloc: Global,
    entries: &mut MemberList,
    modifiers: &Modifiers,
    properties: &[PropertyDecl],
) -> Result<(), AllocError>
    ensures { OnOk result (entries.new ≡ entries.old ++ map (property_entry modifiers.now) (map tree.property_of properties.now)) }
{
    for property in properties {
        entries.push(MemberEntry {
            kind: property_kind(modifiers),
            name: Items::from_slice(alloc, property.name.text.as_slice())?,
            visibility: visibility_of(modifiers),
            has_body: false,
        })?;
    }
    Ok(())
}

fn add_method(
    alloc: Global,
    entries: &mut MemberList,
    modifiers: &Modifiers,
    has_body: bool,
    name: &FunName,
) -> Result<(), AllocError>
    ensures { OnOk result (entries.new ≡ entries.old ++ method_entry modifiers.now has_body name.now ∷ []) }
{
    entries.push(MemberEntry {
        kind: MemberKind::Method,
        name: Items::from_slice(alloc, name.text.as_slice())?,
        visibility: visibility_of(modifiers),
        has_body,
    })?;
    Ok(())
}

fn add_member(alloc: Global, entries: &mut MemberList, member: &Member) -> Result<(), AllocError>
    ensures { OnOk result ((rest : Members ℕ) → entries.new ++ entries_of rest ≡ entries.old ++ entries_of (tree.member_of member.now rest)) }
{
    match member {
        Member::Constants(constants, _) => add_constants(alloc, entries, constants.as_slice())?,
        Member::Properties(modifiers, properties, _) => {
            add_properties(alloc, entries, modifiers, properties.as_slice())?
        }
        Member::Method(modifiers, function, _) => {
            add_method(alloc, entries, modifiers, true, &function.get().name)?
        }
        Member::Bodiless(modifiers, signature, _) => {
            add_method(alloc, entries, modifiers, false, &signature.get().name)?
        }
    }
    Ok(())
}

/// The names that these members declare, in text order.
pub fn entries_of(alloc: Global, members: &[Member]) -> Result<MemberList, AllocError>
    ensures { IfOk result (λ entries. entries ≡ entries_of (tree.members_of members.now)) }
{
    let mut entries = MemberList::new(alloc);
    for member in members {
        add_member(alloc, &mut entries, member)?;
    }
    Ok(entries)
}
