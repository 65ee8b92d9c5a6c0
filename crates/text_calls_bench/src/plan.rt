//! What a line asks for.

use php_text_calls::{TextCall, text_call_named};

#[derive(Clone, Copy, Debug, Drop)]
pub struct Plan {
    pub call: TextCall,
    pub bytes: u32,
    pub times: u32,
}

/// Three words with a space between two.
pub fn parse(line: &str) -> Option<Plan> {
    let mut words = line.split(' ');
    let call = text_call_named(words.next()?)?;
    let bytes = words.next()?.parse::<u32>().ok()?;
    let times = words.next()?.parse::<u32>().ok()?;
    Some(Plan { call, bytes, times })
}
