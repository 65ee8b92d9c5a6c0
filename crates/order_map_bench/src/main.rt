//! Work on ordered arrays, for `bench/values`. Each line of the input is one piece of work: what is done, with numbers
//! or texts as keys, how many keys there are, and how often it is done. What the work counted is printed.
#![tactic(auto)]

mod plan;
mod work;

use std::io;

fn main(rt: HostRuntime) -> io::Result<()> {
    for line in rt.lines(rt.alloc()) {
        let line = line?;
        match plan::parse(line.as_str()) {
            None => println!(rt; "no work")?,
            Some(plan) => match work::run(rt.alloc(), &plan) {
                Err(_) => println!(rt; "no memory")?,
                Ok(done) => println!(rt; "counted {done}")?,
            },
        }
    }
    Ok(())
}
