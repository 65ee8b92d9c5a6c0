//! A load of takes and releases, with pins beside them. Each line of the input is one load: the count of
//! threads (1, 2 or 4), of slots, of visits per thread and of pins. What the closing words count is printed.
#![tactic(auto)]

mod crowd;
mod plan;
mod visitor;

use std::io;

fn main(rt: HostRuntime) -> io::Result<()> {
    for line in rt.lines(rt.alloc()) {
        let line = line?;
        match plan::parse(line.as_str()) {
            None => println!(rt; "not a load")?,
            Some(plan) => match crowd::run(&rt, rt.alloc(), &plan) {
                Err(_) => println!(rt; "no memory")?,
                Ok(done) => println!(rt; "visits {} pins {}", done.visits, done.pins)?,
            },
        }
    }
    Ok(())
}
