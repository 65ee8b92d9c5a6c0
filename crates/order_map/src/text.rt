// Byte texts that are shared until they are written.

ghost use Rattle.std.specs.Prelude.{◌≡◌, ◌≤◌, ◌+◌, [], ◌++◌, ◌==◌, length, IfOk, OnOk, OnErr};

use crate::few::Few;
use std::alloc::{AllocError, Global};
use std::marker::Model;
use std::rc::Rc;

// Where the bytes stand.
#[derive(Debug, Drop)]
pub(crate) enum Form {
    Short(Few),
    Long(Rc<Vec<u8>>),
}

/// A list of bytes. A copy takes constant time: it shares the bytes, or has the few that stand in the text itself. The
/// first write to a copy makes bytes of its own, and the only owner grows its bytes in place. A text of at most 14 bytes
/// takes no memory.
#[derive(Debug, Drop)]
pub struct ByteText {
    form: Form,
    alloc: Global,
}

impl Model for ByteText {
    ghost use Rattle.std.specs.Prelude.{List, ℕ};
    ghost use Rattle.order_map.specs.Texts.{bytes_of};

    ghost Value = { List ℕ };

    ghost view = { λ t. bytes_of t.form };
}

// Adds bytes to those that copies may share.
fn grow_shared(alloc: Global, shared: &mut Rc<Vec<u8>>, more: &[u8]) -> Result<(), AllocError>
    ensures ok { OnOk result (shared.new.value.items ≡ shared.old.value.items ++ more.now) }
    ensures err { OnErr result (shared.new.value.items ≡ shared.old.value.items) }
{
    if let Some(bytes) = Rc::get_mut(shared) {
        bytes.extend_from_slice(more)?;
        return Ok(());
    }
    *shared = long(alloc, (**shared).as_slice(), more)?;
    Ok(())
}

// Bytes behind others, in memory of their own.
fn long(alloc: Global, bytes: &[u8], more: &[u8]) -> Result<Rc<Vec<u8>>, AllocError>
    ensures { IfOk result (λ shared. shared.value.items ≡ bytes.now ++ more.now) }
{
    let mut all = Vec::from_slice(alloc, bytes)?;
    all.extend_from_slice(more)?;
    let shared = Rc::new(alloc, all)?;
    Ok(shared)
}

impl ByteText {
    /// The empty text.
    pub fn new(alloc: Global) -> Result<ByteText, AllocError>
        ensures { IfOk result (λ t. t ≡ []) }
    {
        ByteText::from_slice(alloc, &[])
    }

    /// The bytes of a vector, which are not copied where they are more than a few.
    pub fn from_vec(alloc: Global, bytes: Vec<u8>) -> Result<ByteText, AllocError>
        ensures { IfOk result (λ t. t ≡ bytes.items) }
    {
        let form = match Few::from_slice(bytes.as_slice()) {
            Some(few) => Form::Short(few),
            None => Form::Long(Rc::new(alloc, bytes)?),
        };
        Ok(ByteText { form, alloc })
    }

    /// A copy of some bytes.
    pub fn from_slice(alloc: Global, bytes: &[u8]) -> Result<ByteText, AllocError>
        ensures { IfOk result (λ t. t ≡ bytes.now) }
    {
        let form = match Few::from_slice(bytes) {
            Some(few) => Form::Short(few),
            None => Form::Long(long(alloc, bytes, &[])?),
        };
        Ok(ByteText { form, alloc })
    }

    pub fn as_slice(&self) -> &[u8]
        ensures { result.now ≡ self.now }
    {
        match &self.form {
            Form::Short(few) => few.as_slice(),
            Form::Long(shared) => shared.as_ref().as_slice(),
        }
    }

    pub fn len(&self) -> usize
        ensures { result ≡ length self.now }
    {
        self.as_slice().len()
    }

    pub fn is_empty(&self) -> bool
        ensures { result ≡ (length self.now == 0) }
    {
        self.as_slice().is_empty()
    }

    /// Adds bytes at the end. After an error the text is as before.
    pub fn extend_from_slice(&mut self, more: &[u8]) -> Result<(), AllocError>
        ensures ok { OnOk result (self.new ≡ self.old ++ more.now) }
        ensures err { OnErr result (self.new ≡ self.old) }
    {
        let alloc = self.alloc;
        match &mut self.form {
            Form::Long(shared) => {
                grow_shared(alloc, shared, more)?;
                Ok(())
            }
            Form::Short(few) => {
                let form = match few.joined(more) {
                    Some(few) => Form::Short(few),
                    None => Form::Long(long(alloc, few.as_slice(), more)?),
                };
                self.form = form;
                Ok(())
            }
        }
    }
}

impl Clone for ByteText {
    ghost is_clone = { λ t copy. copy ≡ t };

    fn clone(&self) -> Result<ByteText, AllocError> {
        let form = match &self.form {
            Form::Short(few) => Form::Short(*few),
            Form::Long(shared) => Form::Long(shared.clone()?),
        };
        Ok(ByteText {
            form,
            alloc: self.alloc,
        })
    }
}
