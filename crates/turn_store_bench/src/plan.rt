//! What a line asks for.
ghost use Rattle.std.specs.Prelude.{◌<◌, ◌≤◌, IfSome};

#[derive(Clone, Copy, Debug, Drop, PartialEq, Eq)]
pub enum Width {
    One,
    Two,
    Four,
}

/// At least one slot. `visits` are those of each thread.
#[derive(Clone, Copy, Debug, Drop)]
pub struct Plan {
    pub threads: Width,
    pub slots: usize,
    pub visits: u32,
    pub pins: u32,
    ghost some_slot: { 0 < slots },
}

fn parse_width(word: &str) -> Option<Width> {
    match word {
        "1" => Some(Width::One),
        "2" => Some(Width::Two),
        "4" => Some(Width::Four),
        _ => None,
    }
}

/// Four words with a space between two.
pub fn parse(line: &str) -> Option<Plan> {
    let mut words = line.split(' ');
    let threads = parse_width(words.next()?)?;
    let slots = words.next()?.parse::<u32>().ok()? as usize;
    let visits = words.next()?.parse::<u32>().ok()?;
    let pins = words.next()?.parse::<u32>().ok()?;
    if slots == 0 {
        return None;
    }
    Some(Plan {
        threads,
        slots,
        visits,
        pins,
    })
}
