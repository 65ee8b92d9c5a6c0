//! Loads of tables and of their keepers. Each line of the input is one load: a word, how many rows there are first, and how
//! often the word is done. What was counted is printed. The journal is the file `tables.journal` of the folder.
#![tactic(auto)]

mod load;
mod plan;

use std::io;

fn main(rt: HostRuntime) -> io::Result<()> {
    for line in rt.lines(rt.alloc()) {
        let line = line?;
        match plan::parse(line.as_str()) {
            None => println!(rt; "no load")?,
            Some(plan) => match load::run(&rt, rt.alloc(), &plan) {
                Ok(count) => println!(rt; "{count}")?,
                Err(_) => println!(rt; "failed")?,
            },
        }
    }
    Ok(())
}
