// Names in lower case.

ghost use Rattle.std.specs.Prelude.{◌≡◌, [], OnOk};
ghost use Rattle.std.specs.Str.{bytes_eq, str_to_ascii_lowercase};

use std::alloc::{AllocError, Global};
use std::marker::Model;

/// Whether a text is a word, in any ASCII case.
pub fn is_word(text: &[u8], word: &[u8]) -> bool
    ensures { result ≡ bytes_eq (str_to_ascii_lowercase text.now) (str_to_ascii_lowercase word.now) }
{
    text.eq_ignore_ascii_case(word)
}

/// A name in lower case. One buffer serves for one name after another, and takes no memory once it is long enough.
#[derive(Drop)]
pub struct LowerName {
    bytes: Vec<u8>,
}

impl Model for LowerName {
    ghost use Rattle.std.specs.Prelude.{List, ℕ};

    ghost Value = { List ℕ };

    ghost view = { λ name. name.bytes.items };
}

impl LowerName {
    /// The empty name. It takes no memory.
    pub fn new(alloc: Global) -> LowerName
        ensures { result ≡ [] }
    {
        LowerName {
            bytes: Vec::new(alloc),
        }
    }

    /// Makes it another name, in lower case.
    pub fn set(&mut self, name: &[u8]) -> Result<(), AllocError>
        ensures { OnOk result (self.new ≡ str_to_ascii_lowercase name.now) }
    {
        self.bytes.clear();
        self.bytes.extend_from_slice(name)?;
        self.bytes.as_mut_slice().make_ascii_lowercase();
        Ok(())
    }

    pub fn as_slice(&self) -> &[u8]
        ensures { result.now ≡ self.now }
    {
        self.bytes.as_slice()
    }
}
