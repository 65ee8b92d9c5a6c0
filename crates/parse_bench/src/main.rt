//! Texts that are parsed, many times over. Each line of the input is one load: a word, a size and a count. What parsing told is
//! printed: how many statements and functions there are, or where there is no tree. After `text` the rest of the input is the text.
#![tactic(auto)]

mod form;
mod load;
mod nest;
mod plan;

use crate::load::Told;
use std::io::{self, BufRead};

fn main(rt: HostRuntime) -> io::Result<()> {
    let alloc = rt.alloc();
    let mut input = io::BufReader::new(alloc, rt.reader())?;
    for _ in 0..u64::MAX {
        let mut line = String::new(alloc);
        if input.read_line(&mut line)? == 0 {
            break;
        }
        let told = match plan::parse(line.as_str().trim_end()) {
            None => Told::NoLoad,
            Some(plan) => load::run(alloc, &plan, &mut input),
        };
        match told {
            Told::NoLoad => println!(rt; "no load")?,
            Told::Tree(statements, functions) => {
                println!(rt; "statements {statements} functions {functions}")?
            }
            Told::Unexpected(place) => println!(rt; "unexpected at {place}")?,
            Told::LeftOut(place) => println!(rt; "left out at {place}")?,
            Told::Deep(place) => println!(rt; "deep at {place}")?,
            Told::NoTokens(place) => println!(rt; "no token at {place}")?,
            Told::TooLong => println!(rt; "too long")?,
            Told::Failed => println!(rt; "failed")?,
        }
    }
    Ok(())
}
