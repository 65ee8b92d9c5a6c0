//! What a line asks for.

#[derive(Clone, Copy, Debug, Drop, PartialEq, Eq)]
pub enum Work {
    /// Nothing but the value.
    Value,
    /// The texts of ids, written and read.
    Ids,
    /// The size of the value.
    Sizes,
    /// The value from an array.
    Keep,
    /// An array of the value.
    Back,
    /// The text at the last key.
    Seek,
}

#[derive(Clone, Copy, Debug, Drop)]
pub struct Plan {
    pub work: Work,
    pub pairs: u32,
    pub times: u32,
}

fn parse_work(word: &str) -> Option<Work> {
    match word {
        "value" => Some(Work::Value),
        "ids" => Some(Work::Ids),
        "sizes" => Some(Work::Sizes),
        "keep" => Some(Work::Keep),
        "back" => Some(Work::Back),
        "seek" => Some(Work::Seek),
        _ => None,
    }
}

/// Three words with a space between two.
pub fn parse(line: &str) -> Option<Plan> {
    let mut words = line.split(' ');
    let work = parse_work(words.next()?)?;
    let pairs = words.next()?.parse::<u32>().ok()?;
    let times = words.next()?.parse::<u32>().ok()?;
    Some(Plan { work, pairs, times })
}
