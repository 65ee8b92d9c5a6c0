//! The names of a file's variables.

ghost use Rattle.std.specs.Prelude.{◌≡◌, ◌<◌, ◌^◌, [], length, drop, map, OnOk, IfOk};
ghost use Rattle.php_tree.specs.declared.name.VarName.{VarName};
ghost use Rattle.php_lexer.specs.Marks.{mark_of};
ghost use Rattle.php_lexemes.specs.Names.{noted, noted_all, mark_names, part_names, names_in, number_in, name_text};

use indexmap::IndexSet;
use php_lexer::{IndexKey, Kind, Part, Token};
use php_tree::name::VarName;
use sqlite_items::Items;
use std::alloc::{AllocError, Global};
use std::marker::Model;

/// Names in the order of their first tokens, each once.
#[derive(Drop)]
pub(crate) struct Names<'t> {
    set: IndexSet<&'t [u8]>,
}

impl<'t> Model for Names<'t> {
    ghost use Rattle.std.specs.Prelude.{List, ℕ, map};
    ghost use Rattle.php_lexemes.specs.Names.{pointed};

    ghost Value = { List (List ℕ) };

    ghost view = { λ names. map pointed names.set.keys };
}

/// What stands after the `$` of a variable.
pub(crate) fn past_sign<'t>(text: &'t [u8]) -> &'t [u8]
    ensures { result.now ≡ drop 1 text.now }
{
    if text.is_empty() {
        return text;
    }
    text.split_at(1).1
}

impl<'t> Names<'t> {
    pub(crate) fn new(alloc: Global) -> Names<'t>
        ensures { result ≡ [] }
    {
        Names {
            set: IndexSet::new(alloc),
        }
    }

    fn note(&mut self, name: &'t [u8]) -> Result<(), AllocError>
        ensures { OnOk result (self.new ≡ noted self.old name.now) }
    {
        self.set.insert(name)?;
        Ok(())
    }

    /// Notes the names of a token's variables.
    pub(crate) fn note_token(&mut self, token: &'t Token<'t>) -> Result<(), AllocError>
        ensures { OnOk result (self.new ≡ noted_all self.old (mark_names (mark_of token.now))) }
    {
        match &token.kind {
            Kind::Var => self.note(past_sign(token.text))?,
            Kind::Quote(parts) => self.note_parts(parts.as_slice())?,
            _ => {}
        }
        Ok(())
    }

    fn note_parts(&mut self, parts: &'t [Part]) -> Result<(), AllocError>
        ensures { OnOk result (self.new ≡ noted_all self.old (part_names parts.now)) }
    {
        for part in parts {
            self.note_part(part)?;
        }
        Ok(())
    }

    fn note_part(&mut self, part: &'t Part) -> Result<(), AllocError>
        ensures { OnOk result (self.new ≡ noted_all self.old (names_in part.now)) }
    {
        match part {
            Part::Var(name) => self.note(name.as_slice())?,
            Part::Property(name, _) => self.note(name.as_slice())?,
            Part::Index(name, IndexKey::Plain(_)) => self.note(name.as_slice())?,
            Part::Index(name, IndexKey::Var(key)) => {
                self.note(name.as_slice())?;
                self.note(key.as_slice())?;
            }
            _ => {}
        }
        Ok(())
    }

    /// The place of a name among the names, their count where it is none of them.
    fn place(&self, name: &[u8]) -> usize
        ensures { result ≡ number_in self.now name.now }
    {
        match self.set.get_index_of(name) {
            Some(place) => place,
            None => self.set.len(),
        }
    }

    /// The number of a name: its place among the names. That of another name is their count.
    pub(crate) fn number(&self, name: &[u8]) -> Result<u32, AllocError>
        ensures { IfOk result (λ n. n ≡ number_in self.now name.now) }
    {
        let place = self.place(name);
        match u32::try_from(place) {
            Ok(number) => Ok(number),
            Err(_) => Err(AllocError),
        }
    }

    /// The names themselves.
    pub(crate) fn into_list(self, alloc: Global) -> Result<Items<VarName>, AllocError>
        ensures { IfOk result (λ names. map name_text names ≡ self.entry) }
    {
        let Names { set } = self;
        let mut list = Items::new(alloc);
        for name in set.as_slice() {
            let text = Items::from_slice(alloc, *name)?;
            list.push(VarName { text })?;
        }
        Ok(list)
    }
}
