// The slots of an array.

ghost use Rattle.std.specs.Prelude.{◌≡◌, true, Some, is_some};
ghost use Rattle.order_map.specs.MapView.{entry};
ghost use Rattle.order_map.specs.Chains.{holds, held};
ghost use Rattle.order_map.specs.Copies.{IsEntryCopy};

use crate::key::Key;
use std::alloc::AllocError;
use std::mem;

/// A slot: a key with its value, or with none where the pair was removed.
#[derive(Drop)]
pub struct Entry<V> {
    pub(crate) key: Key,
    pub(crate) value: Option<V>,
}

impl<V> Entry<V> {
    // Whether there is a value.
    pub(crate) fn is_full(&self) -> bool
        ensures { result ≡ is_some self.now.value }
    {
        self.value.is_some()
    }

    // How many pairs it holds.
    pub(crate) fn held(&self) -> usize
        ensures { result ≡ held self.now.value }
    {
        if self.is_full() { 1 } else { 0 }
    }

    // Whether it holds the pair of a key.
    pub(crate) fn holds(&self, key: &Key) -> bool
        ensures { result ≡ holds key.now (Some self.now) }
    {
        self.value.is_some() && self.key.is_same(key)
    }

    // The key and the value.
    pub(crate) fn pair(&self) -> (&Key, &V)
        requires { is_some self.now.value ≡ true }
        ensures key { result.0.now ≡ self.now.key }
        ensures value { self.now.value ≡ Some result.1.now }
    {
        (&self.key, self.value.as_ref().unwrap())
    }

    // Puts a value in the place of the one that is there, which is given back.
    pub(crate) fn exchange(&mut self, value: Option<V>) -> Option<V>
        ensures value { result ≡ self.old.value }
        ensures after { self.new ≡ entry self.old.key value }
    {
        mem::replace(&mut self.value, value)
    }
}

impl<V: Clone> Clone for Entry<V> {
    ghost is_clone = { λ e copy. IsEntryCopy V.is_clone e copy };

    fn clone(&self) -> Result<Entry<V>, AllocError> {
        let key = self.key.clone()?;
        let value = match &self.value {
            Some(value) => Some(value.clone()?),
            None => None,
        };
        Ok(Entry { key, value })
    }
}
