// The value of a session.

ghost use Rattle.std.specs.Prelude.{◌≡◌};

use crate::mark::Mark;
use std::alloc::Global;
use std::marker::Model;

/// What a session keeps: pairs of a key and a value in their order, and the next key. A value is null, a truth value, a
/// number, a text or again such a list. Contracts see the same plain data as of an array without objects. It shares
/// nothing, so that it can go to another thread, and its size in memory is the count of its pairs, however deep they nest.
#[derive(Debug, Drop)]
pub struct SessionValue {
    pub(crate) marks: Vec<Mark>,
    pub(crate) next: u64,
}

impl Model for SessionValue {
    ghost use Rattle.php_values.specs.Data.{ArrayData};
    ghost use Rattle.session_book.specs.Codes.{array_code};
    ghost use Rattle.session_book.specs.Marks.{content, IsWritten};

    ghost Value = { ArrayData };

    ghost coded = { array_code };

    ghost view = { λ s. content s.marks.items s.next };

    ghost invariant = { λ s. IsWritten s.marks.items s.next };
}

impl SessionValue {
    ghost use Rattle.php_values.specs.Data.{of_pairs, no_pairs};

    /// The value with no pair, whose next key is 0. It takes no memory.
    pub fn new(alloc: Global) -> SessionValue
        ensures { result ≡ of_pairs no_pairs 0 }
    {
        SessionValue {
            marks: Vec::new(alloc),
            next: 0,
        }
    }
}
