// Entries of files and functions.

ghost use Rattle.std.specs.Prelude.{◌≡◌, IfOk};
ghost use Rattle.php_world.specs.Naming.{Naming};
ghost use Rattle.php_meaning.specs.Run.{Look};
ghost use Rattle.std.specs.declared.option.Option.TheVariants.{Some};
ghost use Rattle.app_load.specs.Entries as entry;
ghost use Rattle.php_rest.specs.Views.{entry_of, function_entry};
ghost use Rattle.php_rest.specs.declared.owner.Owner.TheVariants as owner;
ghost use Rattle.php_rest.specs.declared.now.Now.TheVariants as now;
ghost use Rattle.php_state.specs.Fits.{Keeps};
ghost use Rattle.php_bodies.specs.Look.{IsAt};
ghost use Rattle.php_machine.specs.Whole.{Continues};

use crate::machine::{Machine, Next};
use php_meaning::FatalName;
use php_rest::{Now, Owner, Tail};
use php_stepping::Steps;
use php_tables::Function;
use php_tally::End;
use php_tree::stmt::Stmt;
use sqlite_items::Items;
use std::alloc::{AllocError, Global};

impl<'a> Machine<'a> {
    // A file's functions are declared, and then come its statements.
    fn enter_file<S: Steps>(
        &mut self,
        alloc: Global,
        steps: &S,
        path: &'a Items<u8>,
        statements: &'a Items<Stmt>,
    ) -> Result<Next<'a>, AllocError>
        ensures law { IfOk result (λ next. (look : Naming → Look) → ((t : Naming) → IsAt t (look t (entry.file path.now)) (Some statements.entry)) → Continues look self.old self.new (now.Enter (owner.File path.entry)) next) }
        ensures keeps { IfOk result (λ _. Keeps self.old.state self.new.state) }
    {
        self.tally.enter(Owner::File(path))?;
        let refused = steps.hoist(
            alloc,
            path,
            statements.as_slice(),
            &mut self.state.functions,
        )?;
        match refused {
            None => Ok(Next::More(Now::OfFile(Tail::new(statements)))),
            Some(line) => Ok(Next::Over(End::Fatal(FatalName::Redeclared, path, line))),
        }
    }

    // A function's statements come next.
    fn enter_body(
        &mut self,
        function: Function<'a>,
        statements: &'a Items<Stmt>,
    ) -> Result<Next<'a>, AllocError>
        ensures law { IfOk result (λ next. (look : Naming → Look) → ((t : Naming) → IsAt t (look t (function_entry function.entry)) (Some statements.entry)) → Continues look self.old self.new (now.Enter (owner.Function function.entry)) next) }
        ensures keeps { IfOk result (λ _. Keeps self.old.state self.new.state) }
    {
        self.tally.enter(Owner::Function(function))?;
        Ok(Next::More(Now::Block(Tail::new(statements))))
    }

    // A file or function is entered, at whose entry these statements stand.
    fn enter_at<S: Steps>(
        &mut self,
        alloc: Global,
        steps: &S,
        owner: Owner<'a>,
        statements: &'a Items<Stmt>,
    ) -> Result<Next<'a>, AllocError>
        ensures law { IfOk result (λ next. (look : Naming → Look) → ((t : Naming) → IsAt t (look t (entry_of owner.entry)) (Some statements.entry)) → Continues look self.old self.new (now.Enter owner.entry) next) }
        ensures keeps { IfOk result (λ _. Keeps self.old.state self.new.state) }
    {
        match owner {
            Owner::File(path) => {
                let next = self.enter_file(alloc, steps, path, statements)?;
                Ok(next)
            }
            Owner::Function(function) => {
                let next = self.enter_body(function, statements)?;
                Ok(next)
            }
        }
    }

    /// A file or function is entered, where these statements stand at its entry, or none.
    pub(crate) fn enter<S: Steps>(
        &mut self,
        alloc: Global,
        steps: &S,
        owner: Owner<'a>,
        found: Option<&'a Items<Stmt>>,
    ) -> Result<Next<'a>, AllocError>
        ensures law { IfOk result (λ next. (look : Naming → Look) → ((t : Naming) → IsAt t (look t (entry_of owner.entry)) found.entry) → Continues look self.old self.new (now.Enter owner.entry) next) }
        ensures keeps { IfOk result (λ _. Keeps self.old.state self.new.state) }
    {
        match found {
            None => Ok(Next::Over(End::Removed(owner))),
            Some(statements) => {
                let next = self.enter_at(alloc, steps, owner, statements)?;
                Ok(next)
            }
        }
    }
}
