// A name or a text of the tables.
ghost use Rattle.std.specs.Prelude.{◌≡◌, ℕ, List, IfOk};

use std::alloc::{AllocError, Global};
use std::marker::Model;

/// Any bytes. Contracts see it as the list of its bytes.
#[derive(Debug, Drop)]
pub struct CellText {
    bytes: Vec<u8>,
}

impl Model for CellText {
    ghost Value = { List ℕ };

    ghost view = { λ text. text.bytes.items };
}

impl CellText {
    pub fn from_slice(alloc: Global, bytes: &[u8]) -> Result<Self, AllocError>
        ensures { IfOk result (λ text. text ≡ bytes.now) }
    {
        Ok(CellText {
            bytes: bytes.to_vec(alloc)?,
        })
    }

    /// The same bytes, without memory.
    pub fn from_vec(bytes: Vec<u8>) -> Self
        ensures { result ≡ bytes.items }
    {
        CellText { bytes }
    }

    pub fn as_slice(&self) -> &[u8]
        ensures { result.now ≡ self.now }
    {
        &self.bytes
    }

    pub fn copy(&self, alloc: Global) -> Result<Self, AllocError>
        ensures { IfOk result (λ text. text ≡ self.now) }
    {
        CellText::from_slice(alloc, self.as_slice())
    }
}
