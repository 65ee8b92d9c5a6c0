//! What a line asks for.

use php_list_calls::{ListCall, list_call_named};

#[derive(Clone, Copy, Debug, Drop)]
pub struct Plan {
    pub call: ListCall,
    pub entries: u32,
    pub times: u32,
}

/// Three words with a space between two.
pub fn parse(line: &str) -> Option<Plan> {
    let mut words = line.split(' ');
    let call = list_call_named(words.next()?)?;
    let entries = words.next()?.parse::<u32>().ok()?;
    let times = words.next()?.parse::<u32>().ok()?;
    Some(Plan {
        call,
        entries,
        times,
    })
}
