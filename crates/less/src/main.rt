//! The program `less`: the commands over the folder that it is run in, standard output and standard error.
#![tactic(auto)]

use less_cmd::less_run;
use less_outside::{FolderReal, SinkReal};
use std::env;
use std::process::ExitCode;

fn main(rt: HostRuntime) -> anyhow::Result<ExitCode> {
    let alloc = rt.alloc();
    let words: Vec<String> = env::args(&rt)?.skip(1).collect(alloc)?;
    let mut folder = FolderReal::new(rt.clone()?, String::from_str(alloc, ".")?);
    let mut out = SinkReal::new(rt.stdout());
    let mut notes = SinkReal::new(rt.stderr());
    let status = less_run(alloc, &words, &mut folder, &mut out, &mut notes);
    Ok(ExitCode::from(status))
}
