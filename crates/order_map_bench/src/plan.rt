//! What a line asks for.

#[derive(Clone, Copy, Debug, Drop, PartialEq, Eq)]
pub enum Task {
    /// The keys are made, and no array.
    Keys,
    /// An array is built by `set`.
    Build,
    /// An array of numbers is built by `append`.
    Append,
    /// An array is built once, and its keys are looked up in a random order.
    Look,
    /// An array is built once and walked.
    Walk,
    /// An array is built and its keys are removed, from the first to the last.
    Remove,
    /// An array is built once and copied.
    Copy,
}

#[derive(Clone, Copy, Debug, Drop)]
pub struct Plan {
    pub task: Task,
    pub texts: bool,
    pub keys: u32,
    pub rounds: u32,
}

fn parse_task(word: &str) -> Option<Task> {
    match word {
        "keys" => Some(Task::Keys),
        "build" => Some(Task::Build),
        "append" => Some(Task::Append),
        "look" => Some(Task::Look),
        "walk" => Some(Task::Walk),
        "remove" => Some(Task::Remove),
        "copy" => Some(Task::Copy),
        _ => None,
    }
}

fn parse_texts(word: &str) -> Option<bool> {
    match word {
        "numbers" => Some(false),
        "texts" => Some(true),
        _ => None,
    }
}

/// Four words with a space between two.
pub fn parse(line: &str) -> Option<Plan> {
    let mut words = line.split(' ');
    let task = parse_task(words.next()?)?;
    let texts = parse_texts(words.next()?)?;
    let keys = words.next()?.parse::<u32>().ok()?;
    let rounds = words.next()?.parse::<u32>().ok()?;
    Some(Plan {
        task,
        texts,
        keys,
        rounds,
    })
}
