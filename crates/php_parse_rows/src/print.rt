//! What is printed, and its smallest parts.

use php_tree::expr::QuoteKey;
use php_tree::file::FileTree;
use std::alloc::{AllocError, Global};

/// Bytes that are printed, of a tree whose variables have names.
#[derive(Drop)]
pub struct Print<'t> {
    pub alloc: Global,
    pub tree: &'t FileTree,
    pub bytes: Vec<u8>,
}

impl Print<'_> {
    pub fn put(&mut self, word: &[u8]) -> Result<(), AllocError> {
        self.bytes.extend_from_slice(word)?;
        Ok(())
    }

    pub fn space(&mut self) -> Result<(), AllocError> {
        self.put(b" ")
    }

    pub fn close(&mut self) -> Result<(), AllocError> {
        self.put(b")")
    }

    pub fn count(&mut self, value: u32) -> Result<(), AllocError> {
        let digits = format!(in self.alloc; "{}", value)?;
        self.put(digits.as_bytes())
    }

    pub fn int(&mut self, value: i64) -> Result<(), AllocError> {
        let digits = format!(in self.alloc; "{}", value)?;
        self.put(digits.as_bytes())
    }

    /// The line of a node, but for the first one.
    pub fn line(&mut self, line: u32) -> Result<(), AllocError> {
        if line == 1 {
            return Ok(());
        }
        self.count(line)?;
        self.put(b":")
    }

    /// A name with its line.
    pub fn name(&mut self, text: &[u8], line: u32) -> Result<(), AllocError> {
        self.line(line)?;
        self.put(text)
    }

    /// A text between quotes; the end of a line is `^`.
    pub fn quoted(&mut self, text: &[u8]) -> Result<(), AllocError> {
        self.put(b"'")?;
        for byte in text {
            let shown = if *byte == b'\n' { b'^' } else { *byte };
            self.bytes.push(shown)?;
        }
        self.put(b"'")
    }

    /// A variable by its number.
    pub fn variable(&mut self, number: u32) -> Result<(), AllocError> {
        self.put(b"$")?;
        match self.tree.variable(number) {
            Some(name) => self.put(name.text.as_slice()),
            None => self.put(b"?"),
        }
    }

    pub fn variables(&mut self, numbers: &[u32]) -> Result<(), AllocError> {
        for number in numbers {
            self.space()?;
            self.variable(*number)?;
        }
        Ok(())
    }

    pub fn key(&mut self, key: &QuoteKey) -> Result<(), AllocError> {
        match key {
            QuoteKey::Int(value) => self.int(*value),
            QuoteKey::Text(text) => self.quoted(text.as_slice()),
            QuoteKey::Var(number) => self.variable(*number),
        }
    }
}
