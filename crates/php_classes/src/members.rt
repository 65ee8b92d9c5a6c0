// The names that a class declares.

ghost use Rattle.std.specs.Prelude.{◌≡◌, [], ◌∷◌, ◌++◌, OnOk, OnErr};
ghost use Rattle.std.specs.List.{position};
ghost use Rattle.php_classes.specs.Members.{same_kind, same_name, is_named};

use crate::class::{MemberEntry, MemberKind};
use php_names::is_word;
use std::alloc::{AllocError, Global};
use std::marker::Model;

/// The names that a class declares, fewer than 2^32. Contracts see them as a list, in text order.
#[derive(Drop)]
pub struct MemberList {
    items: Vec<MemberEntry>,
}

impl Model for MemberList {
    ghost use Rattle.std.specs.Prelude.{List, length, ◌<◌, ◌^◌};
    ghost use Rattle.php_classes.specs.declared.class.MemberEntry.{MemberEntry};

    ghost Value = { List MemberEntry };

    ghost view = { λ list. list.items.items };

    ghost invariant = { λ list. length list.items.items < 2 ^ 32 };
}

pub fn is_same_kind(one: MemberKind, other: MemberKind) -> bool
    ensures { result ≡ same_kind one other }
{
    match (one, other) {
        (MemberKind::Method, MemberKind::Method)
        | (MemberKind::Constant, MemberKind::Constant)
        | (MemberKind::StaticProperty, MemberKind::StaticProperty)
        | (MemberKind::Property, MemberKind::Property) => true,
        _ => false,
    }
}

fn is_same_name(kind: MemberKind, one: &[u8], other: &[u8]) -> bool
    ensures { result ≡ same_name kind one.now other.now }
{
    match kind {
        MemberKind::Method => is_word(one, other),
        _ => one == other,
    }
}

/// Whether a member is of that kind and name: a method's in any ASCII case, another's as it is written.
pub fn is_named(kind: MemberKind, name: &[u8], member: &MemberEntry) -> bool
    ensures { result ≡ is_named kind name.now member.now }
{
    is_same_kind(kind, member.kind) && is_same_name(kind, name, member.name.as_slice())
}

impl MemberList {
    /// No name. It takes no memory.
    pub fn new(alloc: Global) -> MemberList
        ensures { result ≡ [] }
    {
        MemberList {
            items: Vec::new(alloc),
        }
    }

    pub fn as_slice(&self) -> &[MemberEntry]
        ensures { result.now ≡ self.now }
    {
        self.items.as_slice()
    }

    /// Declares another name. After an error nothing was declared; an error comes also where there are 2^32 - 1.
    pub fn push(&mut self, member: MemberEntry) -> Result<(), AllocError>
        ensures ok { OnOk result (self.new ≡ self.old ++ member ∷ []) }
        ensures err { OnErr result (self.new ≡ self.old) }
    {
        if self.items.len() >= 4_294_967_295 {
            return Err(AllocError);
        }
        self.items.push(member)?;
        Ok(())
    }

    /// The place of the first declaration of that kind and name.
    pub fn place(&self, kind: MemberKind, name: &[u8]) -> Option<u32>
        ensures { result ≡ position (is_named kind name.now) self.now }
    {
        let place = place_in(self.items.as_slice(), kind, name)?;
        Some(place as u32)
    }
}

fn place_in(members: &[MemberEntry], kind: MemberKind, name: &[u8]) -> Option<usize>
    ensures { result ≡ position (is_named kind name.now) members.now }
{
    members
        .iter()
        .position(|member| is_named(kind, name, member))
}
