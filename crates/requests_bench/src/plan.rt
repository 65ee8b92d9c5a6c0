//! What a line asks for.

#[derive(Clone, Copy, Debug, Drop, PartialEq, Eq)]
pub enum Work {
    /// Requests without a body and with so many headers, from bytes.
    Heads,
    /// The same, from a link.
    Link,
    /// Requests with a body of so many bytes, from a link.
    Body,
    /// Forms of so many pairs, from bytes to what a script is given.
    Form,
    /// Replies with an output of so many bytes.
    Reply,
}

#[derive(Clone, Copy, Debug, Drop)]
pub struct Plan {
    pub work: Work,
    pub size: u32,
    pub times: u32,
    pub piece: u32,
}

fn parse_work(word: &str) -> Option<Work> {
    match word {
        "heads" => Some(Work::Heads),
        "link" => Some(Work::Link),
        "body" => Some(Work::Body),
        "form" => Some(Work::Form),
        "reply" => Some(Work::Reply),
        _ => None,
    }
}

/// Four words with a space between two.
pub fn parse(line: &str) -> Option<Plan> {
    let mut words = line.split(' ');
    let work = parse_work(words.next()?)?;
    let size = words.next()?.parse::<u32>().ok()?;
    let times = words.next()?.parse::<u32>().ok()?;
    let piece = words.next()?.parse::<u32>().ok()?;
    Some(Plan {
        work,
        size,
        times,
        piece,
    })
}
