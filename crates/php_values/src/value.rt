// Values.

ghost use Rattle.std.specs.Prelude.{◌≡◌, IfOk};
ghost use Rattle.order_map.specs.Arrays.{pairs_of};
ghost use Rattle.php_values.specs.Convert as spec;
ghost use Rattle.php_values.specs.Data.{data_of, array_of, data_pairs};

use crate::parts::take_apart;
use order_map::{ByteText, OrderMap};
use std::alloc::{AllocError, Global};
use std::rc::Rc;

/// A value. Texts and arrays are shared until they are written. An object is a number that the machine gives it.
#[derive(Drop)]
#[cycle(value)]
pub enum Value {
    Null,
    Bool(bool),
    Int(i64),
    Bytes(ByteText),
    List(ArrayValue),
    Object(u32),
}

/// An array, shared by its copies until one of them is written.
#[cycle(value)]
pub struct ArrayValue {
    pub map: Rc<OrderMap<Value>>,
}

// A drop of its own: a derived one would call itself once for each level of nesting.
impl Drop for ArrayValue {
    fn drop(self) {
        if let Some(map) = self.into_own() {
            take_apart(map);
        }
    }
}

impl ArrayValue {
    /// The map, where no copy shares it.
    pub(crate) fn into_own(self) -> Option<OrderMap<Value>> {
        let ArrayValue { map } = self;
        Rc::into_inner(map)
    }
}

impl ArrayValue {
    /// An array that owns a map.
    pub fn new(alloc: Global, map: OrderMap<Value>) -> Result<ArrayValue, AllocError>
        ensures { IfOk result (λ a. a.map.value ≡ map) }
    {
        let map = Rc::new(alloc, map)?;
        Ok(ArrayValue { map })
    }
}

impl ArrayValue {
    /// Whether there is a pair.
    pub fn has_pairs(&self) -> bool
        ensures { result ≡ spec.has_pairs (data_pairs (pairs_of self.now.map.value)) }
    {
        has_pairs(self.map.as_ref())
    }
}

// Whether a map has a pair.
pub(crate) fn has_pairs(map: &OrderMap<Value>) -> bool
    ensures { result ≡ spec.has_pairs (data_pairs (pairs_of map.now)) }
{
    map.len() != 0
}

impl Clone for Value {
    ghost use Rattle.std.specs.Prelude.{◌≡◌};
    ghost use Rattle.php_values.specs.Data.{data_of};

    ghost is_clone = { λ value copy. data_of copy ≡ data_of value };

    fn clone(&self) -> Result<Value, AllocError> {
        match self {
            Value::Null => Ok(Value::Null),
            Value::Bool(b) => Ok(Value::Bool(*b)),
            Value::Int(n) => Ok(Value::Int(*n)),
            Value::Bytes(text) => Ok(Value::Bytes(text.clone()?)),
            Value::List(array) => Ok(Value::List(array.share()?)),
            Value::Object(n) => Ok(Value::Object(*n)),
        }
    }
}

impl ArrayValue {
    /// The same array, shared.
    pub fn share(&self) -> Result<ArrayValue, AllocError>
        ensures { IfOk result (λ a. array_of a.map.value ≡ array_of self.now.map.value) }
    {
        let map = self.map.clone()?;
        Ok(ArrayValue { map })
    }
}

/// A copy of a value. It takes constant time: texts and arrays are shared until they are written.
pub fn copy_value(value: &Value) -> Result<Value, AllocError>
    ensures { IfOk result (λ copy. data_of copy ≡ data_of value.now) }
{
    value.clone()
}

/// A map with the same keys and copies of the values, to be written by one owner.
pub fn copied(map: &OrderMap<Value>) -> Result<OrderMap<Value>, AllocError>
    ensures { IfOk result (λ m. array_of m ≡ array_of map.now) }
{
    let copy = map.clone()?;
    Ok(copy)
}
