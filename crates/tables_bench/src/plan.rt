//! What a line asks for.

#[derive(Clone, Copy, Debug, Drop, PartialEq, Eq)]
pub enum Work {
    /// Nothing but the rows.
    Rows,
    /// The rows, over and over.
    Insert,
    Get,
    Find,
    Update,
    /// Commits to a keeper in memory, each of one change.
    Memory,
    /// The same to the journal.
    Commit,
    /// The journal is loaded.
    Load,
}

#[derive(Clone, Copy, Debug, Drop)]
pub struct Plan {
    pub work: Work,
    pub rows: u32,
    pub times: u32,
}

fn parse_work(word: &str) -> Option<Work> {
    match word {
        "rows" => Some(Work::Rows),
        "insert" => Some(Work::Insert),
        "get" => Some(Work::Get),
        "find" => Some(Work::Find),
        "update" => Some(Work::Update),
        "memory" => Some(Work::Memory),
        "commit" => Some(Work::Commit),
        "load" => Some(Work::Load),
        _ => None,
    }
}

/// Three words with a space between two.
pub fn parse(line: &str) -> Option<Plan> {
    let mut words = line.split(' ');
    let work = parse_work(words.next()?)?;
    let rows = words.next()?.parse::<u32>().ok()?;
    let times = words.next()?.parse::<u32>().ok()?;
    Some(Plan { work, rows, times })
}
