//! What was read of a quoted text.

ghost use Rattle.std.specs.Prelude.{◌≡◌, ◌≤◌, ◌+◌, ◌++◌, [], ◌∷◌, ◌<◌, ◌%◌, length, OnOk, IfOk};
ghost use Rattle.php_lexer.specs.Bytes as bytes;
ghost use Rattle.php_lexer.specs.Front.{raw_len, shape_len, IsChar};
ghost use Rattle.php_lexer.specs.Texts as spec;

use crate::bytes::cut;
use crate::front::{Raw, Shape};
use crate::kinds::{IndexKey, Kind, Part};
use sqlite_items::Items;
use std::alloc::{AllocError, Global};
use std::mem;

/// The parts that were read, and the bytes behind them.
#[derive(Debug, Drop)]
pub struct Body {
    pub parts: Items<Part>,
    pub bytes: Vec<u8>,
}

fn name(alloc: Global, z: &[u8], at: usize, len: usize) -> Result<Items<u8>, AllocError>
    requires { at + len ≤ length z.now }
    ensures { IfOk result (λ name. name ≡ bytes.cut z.now at len) }
{
    Items::from_slice(alloc, cut(z, at, len))
}

/// The variable at the front as a part.
pub fn part(alloc: Global, shape: Shape, z: &[u8]) -> Result<Part, AllocError>
    requires { shape_len shape ≤ length z.now }
    ensures { IfOk result (λ part. part ≡ spec.part_of shape z.now) }
{
    match shape {
        Shape::Var(len) => Ok(Part::Var(name(alloc, z, 1, len)?)),
        Shape::Index(len, key) => {
            let key = IndexKey::Plain(name(alloc, z, len + 2, key)?);
            Ok(Part::Index(name(alloc, z, 1, len)?, key))
        }
        Shape::IndexVar(len, key) => {
            let key = IndexKey::Var(name(alloc, z, len + 3, key)?);
            Ok(Part::Index(name(alloc, z, 1, len)?, key))
        }
        Shape::Property(len, property) => {
            let property = name(alloc, z, len + 3, property)?;
            Ok(Part::Property(name(alloc, z, 1, len)?, property))
        }
    }
}

/// The first byte of a character in UTF-8, the lead above its bits.
fn lead(mark: u32, bits: u32) -> u8
    requires { mark + bits < 256 }
    ensures { result ≡ mark + bits }
{
    (mark + bits) as u8
}

/// A further byte of a character in UTF-8.
fn tail(bits: u32) -> u8
    ensures { result ≡ 128 + bits % 64 }
{
    (128 + bits % 64) as u8
}

impl Body {
    pub fn new(alloc: Global) -> Body
        ensures parts { result.parts ≡ [] }
        ensures bytes { result.bytes.items ≡ [] }
    {
        Body {
            parts: Items::new(alloc),
            bytes: Vec::new(alloc),
        }
    }

    /// Adds a character's bytes.
    #[tactic(auto, unfolding(crate::specs::Texts::utf8))]
    fn add_char(&mut self, c: u32) -> Result<(), AllocError>
        requires { c ≤ 1114111 }
        ensures parts { OnOk result (self.new.parts ≡ self.old.parts) }
        ensures bytes { OnOk result (self.new.bytes.items ≡ self.old.bytes.items ++ spec.utf8 c) }
    {
        if c < 0x80 {
            return self.bytes.extend_from_slice(&[lead(0, c)]);
        }
        if c < 0x800 {
            return self.bytes.extend_from_slice(&[lead(0xc0, c / 64), tail(c)]);
        }
        if c < 0x1_0000 {
            return self
                .bytes
                .extend_from_slice(&[lead(0xe0, c / 4096), tail(c / 64), tail(c)]);
        }
        self.bytes.extend_from_slice(&[
            lead(0xf0, c / 262_144),
            tail(c / 4096),
            tail(c / 64),
            tail(c),
        ])
    }

    /// Adds what a form at the front stands for.
    pub fn add_raw(&mut self, raw: Raw, z: &[u8]) -> Result<(), AllocError>
        requires len { raw_len raw ≤ length z.now }
        requires char { IsChar raw }
        ensures parts { OnOk result (self.new.parts ≡ self.old.parts) }
        ensures bytes { OnOk result (self.new.bytes.items ≡ self.old.bytes.items ++ spec.raw_bytes raw z.now) }
    {
        match raw {
            Raw::Plain(len) => self.bytes.extend_from_slice(z.split_at(len).0),
            Raw::Byte(b, _) => self.bytes.extend_from_slice(&[b]),
            Raw::Char(c, _) => self.add_char(c),
        }
    }

    /// Makes a part of the bytes, where there are any.
    fn flush(&mut self, alloc: Global) -> Result<(), AllocError>
        ensures parts { OnOk result (self.new.parts ≡ spec.with_bytes self.old.parts self.old.bytes.items) }
        ensures bytes { OnOk result (self.new.bytes.items ≡ []) }
    {
        if self.bytes.is_empty() {
            return Ok(());
        }
        let bytes = mem::replace(&mut self.bytes, Vec::new(alloc));
        self.parts.push(Part::Bytes(Items::from_vec(bytes)))
    }

    /// Adds a part that is no bytes.
    pub fn add_part(&mut self, alloc: Global, part: Part) -> Result<(), AllocError>
        ensures parts { OnOk result (self.new.parts ≡ spec.with_bytes self.old.parts self.old.bytes.items ++ part ∷ []) }
        ensures bytes { OnOk result (self.new.bytes.items ≡ []) }
    {
        self.flush(alloc)?;
        self.parts.push(part)
    }

    /// The token's kind.
    pub fn into_kind(self, alloc: Global) -> Result<Kind, AllocError>
        ensures { IfOk result (λ kind. kind ≡ spec.kind_of self.parts self.bytes.items) }
    {
        let mut body = self;
        if body.parts.is_empty() {
            let Body { parts: _, bytes } = body;
            return Ok(Kind::Text(Items::from_vec(bytes)));
        }
        body.flush(alloc)?;
        let Body { parts, bytes: _ } = body;
        Ok(Kind::Quote(parts))
    }
}
