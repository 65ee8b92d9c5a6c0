//! Loads of sessions. Each line of the input is one load: a word, how many pairs the session's value has, and how often the
//! word is done. What was counted is printed.
#![tactic(auto)]

mod load;
mod plan;

use std::io;

fn main(rt: HostRuntime) -> io::Result<()> {
    for line in rt.lines(rt.alloc()) {
        let line = line?;
        match plan::parse(line.as_str()) {
            None => println!(rt; "no load")?,
            Some(plan) => match load::run(rt.alloc(), &plan) {
                Ok(count) => println!(rt; "{count}")?,
                Err(_) => println!(rt; "failed")?,
            },
        }
    }
    Ok(())
}
