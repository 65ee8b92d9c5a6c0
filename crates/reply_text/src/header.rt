// Headers of requests and replies.
ghost use Rattle.std.specs.Prelude.{◌≡◌};
ghost use Rattle.reply_text.specs.Headers.{Header, is_named};

use std::marker::Model;

/// A header of a request or a reply. Contracts see it as its name and its value.
#[derive(Debug, Drop)]
pub struct HeaderLine {
    name: Vec<u8>,
    value: Vec<u8>,
}

impl Model for HeaderLine {
    ghost use Rattle.reply_text.specs.Headers.{Header};

    ghost Value = { Header };

    ghost view = { λ line. record { name = line.name.items; value = line.value.items } };
}

impl HeaderLine {
    /// A header with this name and this value.
    pub fn new(name: Vec<u8>, value: Vec<u8>) -> HeaderLine
        ensures name { result.name ≡ name.items }
        ensures value { result.value ≡ value.items }
    {
        HeaderLine { name, value }
    }

    pub fn name(&self) -> &[u8]
        ensures { result.now ≡ self.now.name }
    {
        &self.name
    }

    pub fn value(&self) -> &[u8]
        ensures { result.now ≡ self.now.value }
    {
        &self.value
    }

    /// Whether it has this name, in any case of ASCII letters.
    pub fn is_named(&self, name: &[u8]) -> bool
        ensures { result ≡ is_named name.now self.now }
    {
        self.name.eq_ignore_ascii_case(name)
    }
}
