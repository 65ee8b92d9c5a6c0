// What is kept of a class.

use crate::members::MemberList;
use php_tree::decl::{ClassKind, Visibility};
use sqlite_items::Items;

/// What a name of a class is declared as. Names of different kinds are different names.
#[derive(Clone, Copy, Debug, PartialEq, Eq)]
pub enum MemberKind {
    Method,
    Constant,
    StaticProperty,
    /// A property of each object.
    Property,
}

/// A name that a class declares.
#[derive(Drop)]
pub struct MemberEntry {
    pub kind: MemberKind,
    /// As it is written.
    pub name: Items<u8>,
    pub visibility: Visibility,
    /// Whether it is a method with a body.
    pub has_body: bool,
}

/// A class or an interface.
#[derive(Drop)]
pub struct ClassEntry {
    pub kind: ClassKind,
    /// As it is written.
    pub name: Items<u8>,
    /// The number of the class that it extends.
    pub parent: Option<u32>,
    /// The numbers of the interfaces that it implements or, as an interface, extends.
    pub interfaces: Items<u32>,
    /// The names that it declares, in text order.
    pub members: MemberList,
}

/// The numbers of a class's ancestors.
#[derive(Drop)]
pub struct Lineage {
    /// The class itself, its parent and so on.
    pub classes: Items<u32>,
    /// The interfaces of these.
    pub interfaces: Items<u32>,
}

/// Where a member is declared.
#[derive(Clone, Copy, Debug, PartialEq, Eq)]
pub struct MemberRef {
    /// The number of the declaring class.
    pub class: u32,
    /// The place among the names that it declares, from 0.
    pub member: u32,
}
