// How far a call has come.

use php_rest::{Argument, Callee, Now};
use sqlite_items::Items;

/// Something else comes next: an argument, or the end of the run. Or all arguments are there, and the call is to be done.
#[derive(Drop)]
pub enum Reached<'a> {
    Next(Now<'a>),
    Ready(Callee<'a>, Items<Argument>),
}
