//! Prints the trees of texts. Each line of the input is one PHP text, in which `^` stands for the end of a line, or a remark
//! that begins with `#`. A remark is printed as it is; a text is printed with its tree, its functions, or its first fault.
#![tactic(auto)]

mod expr;
mod print;
mod row;
mod stmt;
mod words;

use crate::row::printed;
use std::io::{self, Write};

fn main(rt: HostRuntime) -> io::Result<()> {
    let alloc = rt.alloc();
    let mut out = io::BufWriter::new(alloc, io::writer(&rt))?;
    for line in rt.lines(alloc) {
        let line = line?;
        match printed(alloc, line.as_bytes()) {
            Ok(bytes) => out.write_all(bytes.as_slice())?,
            Err(_) => out.write_all(b"no memory\n")?,
        }
    }
    out.flush()?;
    Ok(())
}
