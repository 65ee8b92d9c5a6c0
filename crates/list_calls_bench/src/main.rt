//! Library calls on lists, many times over. Each line of the input is one load: the name of a call, how many entries
//! its arrays have, and how often it is called. How many calls gave a value is printed.
#![tactic(auto)]

mod load;
mod plan;

use std::io;

fn main(rt: HostRuntime) -> io::Result<()> {
    for line in rt.lines(rt.alloc()) {
        let line = line?;
        match plan::parse(line.as_str()) {
            None => println!(rt; "not a load")?,
            Some(plan) => match load::run(rt.alloc(), &plan) {
                Err(_) => println!(rt; "no value")?,
                Ok(done) => println!(rt; "values {done}")?,
            },
        }
    }
    Ok(())
}
