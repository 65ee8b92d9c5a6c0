// Declarations of classes.

ghost use Rattle.std.specs.Prelude.{◌≡◌, ◌≢◌, ◌++◌, ◌∷◌, [], length, true, Some, None, IfOk, IfErr, OnOk, OnErr};
ghost use Rattle.std.specs.List.{list_all};
ghost use Rattle.std.specs.Option.{option_to_list};
ghost use Rattle.php_tree.specs.StatementOf as tree;
ghost use Rattle.php_classes.specs.Declaring.{parent_number, numbers_of, is_declared, names_below, entry_of, refusal};

use crate::class::ClassEntry;
use crate::entries::entries_of;
use crate::fault::ClassFault;
use crate::table::ClassTable;
use php_tree::decl::ClassDecl;
use php_tree::name::ClassName;
use sqlite_items::Items;
use std::alloc::{AllocError, Global};

impl ClassTable {
    fn parent_number(&self, parent: &Option<ClassName>) -> Option<u32>
        ensures { result ≡ parent_number self.now parent.now }
    {
        match parent {
            Some(name) => self.class_named(name.text.as_slice()),
            None => None,
        }
    }

    // The numbers of those names that are declared.
    fn numbers_of(&self, alloc: Global, names: &[ClassName]) -> Result<Items<u32>, AllocError>
        ensures { IfOk result (λ numbers. numbers ≡ numbers_of self.now names.now) }
    {
        let mut numbers = Items::new(alloc);
        for name in names {
            if let Some(number) = self.class_named(name.text.as_slice()) {
                numbers.push(number)?;
            }
        }
        Ok(numbers)
    }

    fn is_declared(&self, name: &ClassName) -> bool
        ensures { result ≡ is_declared self.now name.now }
    {
        self.class_named(name.text.as_slice()).is_some()
    }

    fn are_declared(&self, names: &[ClassName]) -> bool
        ensures { result ≡ list_all (is_declared self.now) names.now }
    {
        names.iter().all(|name| self.is_declared(name))
    }

    fn all_declared(&self, parent: &Option<ClassName>, interfaces: &[ClassName]) -> bool
        ensures { result ≡ list_all (is_declared self.now) (option_to_list parent.now ++ interfaces.now) }
    {
        match parent {
            Some(name) => self.is_declared(name) && self.are_declared(interfaces),
            None => self.are_declared(interfaces),
        }
    }

    // What is kept of a declaration. A name that is not declared is left out.
    #[tactic(auto, using(crate::proofs::Declared::entry_opened))]
    fn entry_of(&self, alloc: Global, decl: &ClassDecl) -> Result<ClassEntry, AllocError>
        ensures { IfOk result (λ entry. entry ≡ entry_of self.now (tree.class_of decl.now)) }
    {
        Ok(ClassEntry {
            kind: decl.kind,
            name: Items::from_slice(alloc, decl.name.text.as_slice())?,
            parent: self.parent_number(&decl.parent),
            interfaces: self.numbers_of(alloc, decl.interfaces.as_slice())?,
            members: entries_of(alloc, decl.members.as_slice())?,
        })
    }

    /// Declares a class or an interface, and gives its number. After an error the table is as before.
    #[tactic(auto, using(crate::proofs::Declared::built_on_earlier, crate::proofs::Declared::refusal_opened))]
    pub fn declare(&mut self, alloc: Global, decl: &ClassDecl) -> Result<u32, ClassFault>
        ensures number { IfOk result (λ number. number ≡ length self.old) }
        ensures ok { OnOk result (self.new ≡ self.old ++ entry_of self.old (tree.class_of decl.now) ∷ []) }
        ensures accepted { OnOk result (refusal self.old (tree.class_of decl.now) ≡ None) }
        ensures refused { IfErr result (λ fault. fault ≢ ClassFault.Memory → refusal self.old (tree.class_of decl.now) ≡ Some fault) }
        ensures err { OnErr result (self.new ≡ self.old) }
    {
        if self.is_declared(&decl.name) {
            return Err(ClassFault::Redeclared);
        }
        let entry = self.entry_of(alloc, decl)?;
        if self.is_declared_again(&entry) {
            return Err(ClassFault::Redeclared);
        }
        if !self.all_declared(&decl.parent, decl.interfaces.as_slice()) {
            return Err(ClassFault::Unknown);
        }
        let number = self.add(alloc, entry)?;
        Ok(number)
    }
}
