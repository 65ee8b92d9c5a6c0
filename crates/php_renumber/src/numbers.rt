// Other numbers for the variables of a file.

ghost use Rattle.std.specs.Prelude.{◌≡◌};
ghost use Rattle.php_renumber.specs.Numbers.{number_in};

use sqlite_items::{Items, at};

/// For each number of a file's list of variables another number.
#[derive(Drop)]
pub struct Numbers {
    pub others: Items<u32>,
    /// The number of what is past the list.
    pub past: u32,
}

/// The other number of a variable.
pub fn number(numbers: &Numbers, variable: u32) -> u32
    ensures { result ≡ number_in numbers.now variable }
{
    match at(numbers.others.as_slice(), variable as usize) {
        Some(other) => *other,
        None => numbers.past,
    }
}
