//! What a line asks for.

use crate::form::Form;

#[derive(Clone, Copy, Debug, Drop)]
pub struct Plan {
    pub form: Form,
    /// Bytes of generated functions, statements or operands in a row, or how often a nesting opens.
    pub size: u32,
    /// How often the text is parsed.
    pub times: u32,
}

/// Three words with a space between two.
pub fn parse(line: &str) -> Option<Plan> {
    let mut words = line.split(' ');
    let form = Form::named(words.next()?)?;
    let size = words.next()?.parse::<u32>().ok()?;
    let times = words.next()?.parse::<u32>().ok()?;
    Some(Plan { form, size, times })
}
