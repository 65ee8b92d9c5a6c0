//! Loads applications and copies. Each line of the input describes one; what is told of it is printed.
#![tactic(auto)]

mod files;
mod row;
mod told;

use std::io;

fn main(rt: HostRuntime) -> io::Result<()> {
    for line in rt.lines(rt.alloc()) {
        let line = line?;
        match row::parse(line.as_str()) {
            None => println!(rt; "no row")?,
            Some(row) => match told::told_of(rt.alloc(), &row) {
                Ok(text) => print!(rt; "{text}")?,
                Err(_) => println!(rt; "no memory")?,
            },
        }
    }
    Ok(())
}
