// The classes of a program.

ghost use Rattle.std.specs.Prelude.{◌≡◌, ◌≢◌, ◌<◌, ◌&&◌, ◌++◌, ◌∷◌, [], length, true, false, slice_get, Ok, Err, IfSome, IfOk, IfErr, OnOk, OnErr};
ghost use Rattle.std.specs.Option.{option_copied};
ghost use Rattle.php_classes.specs.Ancestors.{all_of, lineages_of, is_instance};
ghost use Rattle.php_classes.specs.LookUp.{looked_up, constant_at, first_declaration, IsPlace};
ghost use Rattle.php_classes.specs.Declaring.{class_named, names_below, is_concrete, lacks_among, lacks_body, declares_again, parent_in};

use crate::class::{ClassEntry, Lineage, MemberKind, MemberRef};
use crate::fault::ClassFault;
use crate::lineage::{descends, lineage_of};
use crate::look_up::{constant_at, first_declaration, seen};
use crate::refuse::{declares_again, is_concrete, lacks_among};
use php_names::is_word;
use php_tree::decl::ClassKind;
use sqlite_items::at;
use std::alloc::Global;
use std::marker::Model;

/// The classes and interfaces of a program. Contracts see them as a list, in the order in which they were declared; a class's
/// number is its place there.
#[derive(Drop)]
pub struct ClassTable {
    classes: Vec<ClassEntry>,
    lineages: Vec<Lineage>,
}

impl Model for ClassTable {
    ghost use Rattle.std.specs.Prelude.{List};
    ghost use Rattle.php_classes.specs.Tables.{IsKept};
    ghost use Rattle.php_classes.specs.declared.class.ClassEntry.{ClassEntry};

    ghost Value = { List ClassEntry };

    ghost view = { λ table. table.classes.items };

    ghost invariant = { λ table. IsKept table.classes.items table.lineages.items };
}

fn place_of(classes: &[ClassEntry], name: &[u8]) -> Option<usize>
    ensures { result ≡ class_named name.now classes.now }
{
    classes
        .iter()
        .position(|class| is_word(name, class.name.as_slice()))
}

fn parent_at(classes: &[ClassEntry], class: u32) -> Option<u32>
    ensures { result ≡ parent_in (slice_get classes.now class) }
{
    match at(classes, class as usize) {
        Some(class) => class.parent,
        None => None,
    }
}

// Whether a class of this kind lacks a body.
fn is_unfinished(classes: &[ClassEntry], kind: ClassKind, lineage: &Lineage) -> bool
    ensures { result ≡ (is_concrete kind && lacks_among classes.now (all_of lineage.now)) }
{
    is_concrete(kind) && lacks_among(classes, lineage)
}

impl ClassTable {
    /// No class. It takes no memory.
    pub(crate) fn empty(alloc: Global) -> ClassTable
        ensures { result ≡ [] }
    {
        ClassTable {
            classes: Vec::new(alloc),
            lineages: Vec::new(alloc),
        }
    }

    /// Adds a class that names only classes of the table. `Memory` comes also where there are 2^32 - 1 of them.
    pub(crate) fn add(&mut self, alloc: Global, class: ClassEntry) -> Result<u32, ClassFault>
        requires { names_below (length self.old) class ≡ true }
        ensures number { IfOk result (λ number. number ≡ length self.old) }
        ensures ok { OnOk result (self.new ≡ self.old ++ class ∷ []) }
        ensures whole { OnOk result (lacks_body self.old class ≡ false) }
        ensures lacking { IfErr result (λ fault. fault ≢ ClassFault.Memory → fault ≡ ClassFault.Abstract) }
        ensures refused { result ≡ Err ClassFault.Abstract → lacks_body self.old class ≡ true }
        ensures err { OnErr result (self.new ≡ self.old) }
    {
        let number = self.classes.len();
        if number >= 4_294_967_295 {
            return Err(ClassFault::Memory);
        }
        let lineage = lineage_of(alloc, self.lineages.as_slice(), number as u32, &class)?;
        let kind = class.kind;
        self.classes.push(class)?;
        if is_unfinished(self.classes.as_slice(), kind, &lineage) {
            let _class = self.classes.pop();
            return Err(ClassFault::Abstract);
        }
        if self.lineages.push(lineage).is_err() {
            let _class = self.classes.pop();
            return Err(ClassFault::Memory);
        }
        Ok(number as u32)
    }

    /// What is kept of a class.
    pub fn class(&self, class: u32) -> Option<&ClassEntry>
        ensures { option_copied result ≡ slice_get self.now class }
    {
        at(self.classes.as_slice(), class as usize)
    }

    /// The class or interface of this name, in any ASCII case. It takes no memory.
    pub fn class_named(&self, name: &[u8]) -> Option<u32>
        ensures named { result ≡ class_named name.now self.now }
        ensures within { IfSome result (λ number. number < length self.now) }
    {
        let number = place_of(self.classes.as_slice(), name)?;
        Some(number as u32)
    }

    /// The number of the class that a class extends, which is lower than its own.
    pub fn parent(&self, class: u32) -> Option<u32>
        ensures parent { result ≡ parent_in (slice_get self.now class) }
        ensures earlier { IfSome result (λ parent. parent < class) }
    {
        parent_at(self.classes.as_slice(), class)
    }

    /// Whether a class is another or descends from it. It takes no memory.
    pub fn instance_of(&self, class: u32, other: u32) -> bool
        ensures { result ≡ is_instance self.now class other }
    {
        descends(self.lineages.as_slice(), class, other)
    }

    /// Whether a class declares again what an ancestor of it does not leave to it.
    pub(crate) fn is_declared_again(&self, class: &ClassEntry) -> bool
        ensures { result ≡ declares_again self.now (lineages_of self.now) class.now }
    {
        declares_again(self.classes.as_slice(), self.lineages.as_slice(), class)
    }

    #[tactic(auto, using(crate::proofs::Places::seen_within))]
    fn look_up(
        &self,
        kind: MemberKind,
        class: u32,
        name: &[u8],
        scope: Option<u32>,
    ) -> Result<MemberRef, ClassFault>
        ensures value { result ≡ looked_up self.now kind class name.now scope }
        ensures within { IfOk result (λ place. IsPlace self.now place) }
    {
        let classes = self.classes.as_slice();
        let lineages = self.lineages.as_slice();
        let first = first_declaration(classes, lineages, kind, class, name);
        seen(classes, lineages, scope, first)
    }

    /// A method of a class, in any ASCII case, as it is seen from the class whose code names it. It takes no memory.
    pub fn method(
        &self,
        class: u32,
        name: &[u8],
        scope: Option<u32>,
    ) -> Result<MemberRef, ClassFault>
        ensures value { result ≡ looked_up self.now MemberKind.Method class name.now scope }
        ensures within { IfOk result (λ place. IsPlace self.now place) }
    {
        self.look_up(MemberKind::Method, class, name, scope)
    }

    /// A static property, as it is seen from the class whose code names it. It takes no memory.
    pub fn static_place(
        &self,
        class: u32,
        name: &[u8],
        scope: Option<u32>,
    ) -> Result<MemberRef, ClassFault>
        ensures value { result ≡ looked_up self.now MemberKind.StaticProperty class name.now scope }
        ensures within { IfOk result (λ place. IsPlace self.now place) }
    {
        self.look_up(MemberKind::StaticProperty, class, name, scope)
    }

    /// A property of an object of a class, as it is seen from the class whose code names it. A name that is not declared is
    /// `Unknown`, and then everyone sees it. It takes no memory.
    pub fn property(
        &self,
        class: u32,
        name: &[u8],
        scope: Option<u32>,
    ) -> Result<MemberRef, ClassFault>
        ensures value { result ≡ looked_up self.now MemberKind.Property class name.now scope }
        ensures within { IfOk result (λ place. IsPlace self.now place) }
    {
        self.look_up(MemberKind::Property, class, name, scope)
    }

    /// A constant of a class. It takes no memory.
    #[tactic(auto, using(crate::proofs::Places::constant_within))]
    pub fn constant(&self, class: u32, name: &[u8]) -> Result<MemberRef, ClassFault>
        ensures value { result ≡ constant_at (first_declaration self.now MemberKind.Constant class name.now) }
        ensures within { IfOk result (λ place. IsPlace self.now place) }
    {
        let classes = self.classes.as_slice();
        let lineages = self.lineages.as_slice();
        let first = first_declaration(classes, lineages, MemberKind::Constant, class, name);
        constant_at(first)
    }
}
